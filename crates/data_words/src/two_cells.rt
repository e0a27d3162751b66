// The words that make one cell of two.
ghost use Rattle.std.specs.Prelude.{◌≡◌, ◌+◌};
ghost use Rattle.data_words.specs.Numbers.{binary_number};
ghost use Rattle.data_words.specs.Tables.{of_two};
ghost use Rattle.steps.specs.Does.{OnCells};

use super::one_cell::flag_of;
use super::words::BinaryWord;
use definition::ranged::Registers;
use fault::Fault;
use steps::cells::{self, Data};

fn of_two(word: BinaryWord, a: u16, b: u16) -> u16
    ensures { result ≡ of_two word a b }
{
    let (x, y) = (a.cast_signed(), b.cast_signed());
    // One dispatch per step: a match on the word, and no table of functions.
    match word {
        BinaryWord::Plus => a.wrapping_add(b),
        BinaryWord::Minus => a.wrapping_sub(b),
        BinaryWord::Times => a.wrapping_mul(b),
        BinaryWord::Min => x.min(y).cast_unsigned(),
        BinaryWord::Max => x.max(y).cast_unsigned(),
        BinaryWord::And => a & b,
        BinaryWord::Or => a | b,
        BinaryWord::Xor => a ^ b,
        BinaryWord::Equal => flag_of(a == b),
        BinaryWord::Less => flag_of(x < y),
        BinaryWord::Greater => flag_of(y < x),
        BinaryWord::UnsignedLess => flag_of(a < b),
    }
}

// + - * MIN MAX AND OR XOR = < > U<
pub fn binary_word(
    registers: &mut Registers,
    word: BinaryWord,
    cells: &mut [u16; 128],
) -> Result<(), Fault>
    ensures { OnCells (binary_number word) registers.old cells.old result registers.new cells.new }
{
    cells::need::<Data>(registers, 2)?;
    let a = cells::cell::<Data>(registers, cells, 1);
    let b = cells::cell::<Data>(registers, cells, 0);
    cells::replace(registers, cells, 2, of_two(word, a, b));
    Ok(())
}
