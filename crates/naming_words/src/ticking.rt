// ' ( ['] and [COMPILE].
ghost use Rattle.std.specs.Prelude.{◌≡◌, ℕ, List, take};
ghost use Rattle.steps.specs.Does.{FromText};
ghost use Rattle.texts.specs.Strings.{TookTo};

use super::entry::{take_entry, token_at};
use definition::ranged::Registers;
use fault::Fault;
use steps::appending::{append, compiled, literal};
use steps::asking::ask_open;
use steps::cells;
use texts::strings::take_to;

// '
pub(crate) fn tick(
    registers: &mut Registers,
    image: &[u8; 65536],
    cells: &mut [u16; 128],
) -> Result<(), Fault>
    ensures { FromText 60 registers.old image.now cells.old result registers.new image.now cells.new }
{
    let entry = take_entry(registers, image)?;
    let token = token_at(registers, image, entry);
    cells::leave(registers, cells, token)
}

// The text of a comment, which may fill a block: a function, so that its limit is proved here and not in the word.
fn take_comment(registers: &mut Registers, image: &[u8; 65536]) -> Result<(usize, usize), Fault>
    ensures { TookTo 41 1024 registers.old image.now result registers.new }
{
    take_to(registers, image, b')', 1024)
}

// (
pub(crate) fn comment(registers: &mut Registers, image: &[u8; 65536]) -> Result<(), Fault>
    ensures { (c : List ℕ) → FromText 62 registers.old image.now c result registers.new image.now c }
{
    take_comment(registers, image)?;
    Ok(())
}

// [']
pub(crate) fn bracket_tick(registers: &mut Registers, image: &mut [u8; 65536]) -> Result<(), Fault>
    ensures did { (c : List ℕ) → FromText 76 registers.old image.old c result registers.new image.new c }
    ensures below { take 256 image.new ≡ take 256 image.old }
{
    let entry = take_entry(registers, image)?;
    ask_open(registers)?;
    let token = token_at(registers, image, entry);
    append(registers, image, &literal(token))
}

// [COMPILE]
pub(crate) fn bracket_compile(
    registers: &mut Registers,
    image: &mut [u8; 65536],
) -> Result<(), Fault>
    ensures did { (c : List ℕ) → FromText 77 registers.old image.old c result registers.new image.new c }
    ensures below { take 256 image.new ≡ take 256 image.old }
{
    let entry = take_entry(registers, image)?;
    ask_open(registers)?;
    let token = token_at(registers, image, entry);
    append(registers, image, &compiled(token))
}
