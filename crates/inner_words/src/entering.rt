// Colon words and the words that DOES> gave code: IP is kept, and goes to their tokens.
ghost use Rattle.std.specs.Prelude.{◌≡◌, ℕ, ◌+◌, ◌<◌, ◌≤◌, List, [], ◌∷◌};
ghost use Rattle.definition.specs.Stacks.{go_to, pushed_returns};
ghost use Rattle.definition.specs.Words.{other_word};
ghost use Rattle.definition.specs.declared.registers.Mark.{Mark};
ghost use Rattle.image.specs.Cells.{cell_at};
ghost use Rattle.steps.specs.Does.{Does, seen};
ghost use Rattle.store.specs.Meaning.{Meaning};

use definition::ranged::Registers;
use fault::Fault;
use steps::cells::{self, Data, Returns};
use steps::inside::ask_inside;
use steps::pointer::go_to;

// Keeps IP, which goes to an address.
fn enter(registers: &mut Registers, address: u16, returns: &mut [u16; 128])
    requires { registers.old.seat.depths.returns < 128 }
    ensures { (i c : List ℕ) (k : List Mark) (s : Meaning) → seen registers.new i c returns.new k s ≡ go_to address (pushed_returns (registers.old.seat.flow.ip ∷ []) (seen registers.old i c returns.old k s)) }
{
    let ip = registers.seat.flow.ip;
    cells::push::<Returns>(registers, returns, ip);
    go_to(registers, address);
}

// The tokens of a colon word begin behind its first parameter cell.
fn first_token(token: u16) -> u16
    requires { token + 2 ≤ 32768 }
    ensures { result ≡ token + 4 }
{
    token + 4
}

// 201 enters its tokens.
pub fn colon_word(
    registers: &mut Registers,
    token: u16,
    returns: &mut [u16; 128],
) -> Result<(), Fault>
    requires { token + 2 ≤ 32768 }
    ensures { (i c : List ℕ) (k : List Mark) (s : Meaning) → Does (other_word 201 token) (seen registers.old i c returns.old k s) result (seen registers.new i c returns.new k s) }
{
    cells::room::<Returns>(registers, 1)?;
    enter(registers, first_token(token), returns);
    Ok(())
}

// The body of a created word: what its first parameter cell holds.
fn body_at(image: &[u8; 65536], token: u16) -> u16
    requires { token + 6 ≤ 32768 }
    ensures { result ≡ cell_at image.now (token + 2) }
{
    image::fetch(image, usize::from(token) + 2)
}

// Its DOES> code: what the cell behind that holds.
fn code_at(image: &[u8; 65536], token: u16) -> u16
    requires { token + 6 ≤ 32768 }
    ensures { result ≡ cell_at image.now (token + 4) }
{
    image::fetch(image, usize::from(token) + 4)
}

// 205 pushes its body, and enters its DOES> code.
pub fn does_word(
    registers: &mut Registers,
    token: u16,
    image: &[u8; 65536],
    cells: &mut [u16; 128],
    returns: &mut [u16; 128],
) -> Result<(), Fault>
    ensures { (k : List Mark) (s : Meaning) → Does (other_word 205 token) (seen registers.old image.now cells.old returns.old k s) result (seen registers.new image.now cells.new returns.new k s) }
{
    ask_inside(registers, token, 6)?;
    cells::room::<Data>(registers, 1)?;
    cells::room::<Returns>(registers, 1)?;
    let body = body_at(image, token);
    let code = code_at(image, token);
    cells::push::<Data>(registers, cells, body);
    enter(registers, code, returns);
    Ok(())
}
