// The words. Each asks all its questions before a byte is written.
ghost use Rattle.std.specs.Prelude.{◌≡◌, ℕ, List, take};
ghost use Rattle.defining_words.specs.Defining.{compiling};
ghost use Rattle.defining_words.specs.Numbers.{defining_number};
ghost use Rattle.steps.specs.Does.{FromText};

use super::making::{Made, begin_colon, define, define_vocabulary};
use super::names::{colon_name, new_name};
use super::space::{ask_entry_space, grow_by_cell};
use super::words::DefiningWord;
use definition::ranged::Registers;
use fault::Fault;
use steps::cells::{self, Data};
use steps::data_space::ask_data_space;

// CREATE
fn create(registers: &mut Registers, image: &mut [u8; 65536]) -> Result<(), Fault>
    ensures did { (c : List ℕ) → FromText 66 registers.old image.old c result registers.new image.new c }
    ensures below { take 256 image.new ≡ take 256 image.old }
{
    let name = new_name(registers, image)?;
    define(registers, image, &name, Made::Created)
}

// VARIABLE
fn variable(registers: &mut Registers, image: &mut [u8; 65536]) -> Result<(), Fault>
    ensures did { (c : List ℕ) → FromText 67 registers.old image.old c result registers.new image.new c }
    ensures below { take 256 image.new ≡ take 256 image.old }
{
    let name = new_name(registers, image)?;
    ask_entry_space(registers, &name)?;
    ask_data_space(registers, 2)?;
    define(registers, image, &name, Made::Created)?;
    grow_by_cell(registers, image);
    Ok(())
}

// CONSTANT
fn constant(
    registers: &mut Registers,
    image: &mut [u8; 65536],
    cells: &[u16; 128],
) -> Result<(), Fault>
    ensures did { FromText 68 registers.old image.old cells.now result registers.new image.new cells.now }
    ensures below { take 256 image.new ≡ take 256 image.old }
{
    let name = new_name(registers, image)?;
    cells::need::<Data>(registers, 1)?;
    let value = cells::cell::<Data>(registers, cells, 0);
    define(registers, image, &name, Made::Constant(value))?;
    cells::release::<Data>(registers, cells, 1);
    Ok(())
}

// VOCABULARY
fn vocabulary(registers: &mut Registers, image: &mut [u8; 65536]) -> Result<(), Fault>
    ensures did { (c : List ℕ) → FromText 69 registers.old image.old c result registers.new image.new c }
    ensures below { take 256 image.new ≡ take 256 image.old }
{
    let name = new_name(registers, image)?;
    define_vocabulary(registers, image, &name)
}

// From now on words of the text are compiled.
fn start_compiling(registers: &mut Registers)
    ensures shared { registers.new.shared ≡ registers.old.shared }
    ensures seat { registers.new.seat ≡ compiling registers.old.seat }
{
    registers.seat.flow.compiling = true;
}

// :
fn colon(registers: &mut Registers, image: &mut [u8; 65536]) -> Result<(), Fault>
    ensures did { (c : List ℕ) → FromText 64 registers.old image.old c result registers.new image.new c }
    ensures below { take 256 image.new ≡ take 256 image.old }
{
    let name = colon_name(registers, image)?;
    begin_colon(registers, image, &name)?;
    start_compiling(registers);
    Ok(())
}

// : CREATE VARIABLE CONSTANT VOCABULARY
pub fn defining_word(
    registers: &mut Registers,
    word: DefiningWord,
    image: &mut [u8; 65536],
    cells: &[u16; 128],
) -> Result<(), Fault>
    ensures did { FromText (defining_number word) registers.old image.old cells.now result registers.new image.new cells.now }
    ensures below { take 256 image.new ≡ take 256 image.old }
{
    match word {
        DefiningWord::Colon => colon(registers, image),
        DefiningWord::Create => create(registers, image),
        DefiningWord::Variable => variable(registers, image),
        DefiningWord::Constant => constant(registers, image, cells),
        DefiningWord::Vocabulary => vocabulary(registers, image),
    }
}
