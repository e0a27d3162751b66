// Appending to the open definition, and the tokens of the words that others compile.
ghost use Rattle.std.specs.Prelude.{◌≡◌, ℕ, List, length, take};
ghost use Rattle.steps.specs.Spaces.{InSpace};
ghost use Rattle.definition.specs.Compile.{literal_of};
ghost use Rattle.dictionary.specs.Dict.{appended};
ghost use Rattle.image.specs.Cells.{cell};

use super::faults::place;
use super::seat_dictionary::{dictionary_of, keep};
use super::tokens::CompiledWord;
use definition::ranged::Registers;
use fault::Fault;

// Appends bytes, if they have space.
pub fn append(registers: &mut Registers, image: &mut [u8; 65536], bytes: &[u8]) -> Result<(), Fault>
    ensures did { InSpace (length bytes.now) (appended bytes.now) registers.old image.old result registers.new image.new }
    ensures depths { registers.new.seat.depths ≡ registers.old.seat.depths }
    ensures below { take 256 image.new ≡ take 256 image.old }
{
    let mut d = dictionary_of(registers);
    d.append(image, bytes, place(registers))?;
    keep(registers, d);
    Ok(())
}

// A token, as it is compiled.
#[tactic(auto, using(dictionary::proofs::Growing::le_bytes_are_cell))]
pub fn compiled(token: u16) -> [u8; 2]
    ensures { result ≡ cell token }
{
    token.to_le_bytes()
}

// (LIT) and a cell, as they are compiled.
#[tactic(auto, using(crate::proofs::Bytes::two_cells))]
pub fn literal(x: u16) -> [u8; 4]
    ensures { result ≡ literal_of x }
{
    let [low, high] = CompiledWord::Literal.token().to_le_bytes();
    let [x_low, x_high] = x.to_le_bytes();
    [low, high, x_low, x_high]
}
