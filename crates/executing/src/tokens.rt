// Tokens in the dictionary, and the way through EXECUTE.
ghost use Rattle.std.specs.Prelude.{◌≡◌, ◌≢◌, true, false};
ghost use Rattle.executing.specs.Tokens.{IsFound, Pops, Released, Through};

use definition::ranged::Registers;
use fault::Fault;
use steps::cells::{self, Data};
use steps::inside::ask_inside;

// The code of EXECUTE.
const EXECUTE: u16 = 59;

// A token in the dictionary, and the code that lies there.
#[derive(Clone, Copy)]
pub(crate) struct Found {
    pub(crate) token: u16,
    pub(crate) code: u16,
}

impl Found {
    fn is_execute(self) -> bool
        ensures yes { result ≡ true → self.code ≡ 59 }
        ensures no { result ≡ false → self.code ≢ 59 }
    {
        self.code == EXECUTE
    }
}

fn found_at(registers: &Registers, image: &[u8; 65536], token: u16) -> Result<Found, Fault>
    ensures { IsFound registers.now image.now token result }
{
    ask_inside(registers, token, 2)?;
    let code = image::fetch(image, usize::from(token));
    Ok(Found { token, code })
}

// Takes the top cell off.
fn pop(registers: &mut Registers, cells: &[u16; 128]) -> Result<u16, Fault>
    ensures { Pops registers.old cells.now result registers.new }
{
    cells::need::<Data>(registers, 1)?;
    let x = cells::cell::<Data>(registers, cells, 0);
    cells::release::<Data>(registers, cells, 1);
    Ok(x)
}

// The token that is executed: EXECUTE goes on with the one that it takes off the stack. Each round takes a cell: no index is counted.
pub(crate) fn through_execute(
    registers: &mut Registers,
    image: &[u8; 65536],
    cells: &[u16; 128],
    token: u16,
) -> Result<Found, Fault>
    ensures through { Through token registers.old image.now cells.now result registers.new }
    ensures released { Released registers.old registers.new }
{
    let mut found = found_at(registers, image, token)?;
    'execute: while found.is_execute() {
        let next = pop(registers, cells)?;
        found = found_at(registers, image, next)?;
    }
    Ok(found)
}
