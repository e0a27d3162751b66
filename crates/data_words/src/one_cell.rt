// The words that make one cell of one.
ghost use Rattle.std.specs.Prelude.{◌≡◌, ◌+◌};
ghost use Rattle.data_words.specs.Numbers.{unary_number};
ghost use Rattle.data_words.specs.Tables.{of_one};
ghost use Rattle.numbers.specs.Cells.{flag};
ghost use Rattle.steps.specs.Does.{OnCells};

use super::words::UnaryWord;
use definition::ranged::Registers;
use fault::Fault;
use steps::cells::{self, Data};

// Yes is all ones, no is 0.
pub(crate) fn flag_of(answer: bool) -> u16
    ensures { result ≡ flag answer }
{
    if answer { u16::MAX } else { 0 }
}

fn of_one(word: UnaryWord, a: u16) -> u16
    ensures { result ≡ of_one word a }
{
    // One dispatch per step: a match on the word, and no table of functions.
    match word {
        UnaryWord::OnePlus => a.wrapping_add(1),
        UnaryWord::OneMinus => a.wrapping_sub(1),
        UnaryWord::TwoSlash => (a.cast_signed() >> 1).cast_unsigned(),
        UnaryWord::Negate => a.wrapping_neg(),
        UnaryWord::Abs => a.cast_signed().unsigned_abs(),
        UnaryWord::Not => !a,
        UnaryWord::ZeroEqual => flag_of(a == 0),
        UnaryWord::ZeroLess => flag_of(a.cast_signed() < 0),
    }
}

// 1+ 1- 2/ NEGATE ABS NOT 0= 0<
pub fn unary_word(
    registers: &mut Registers,
    word: UnaryWord,
    cells: &mut [u16; 128],
) -> Result<(), Fault>
    ensures { OnCells (unary_number word) registers.old cells.old result registers.new cells.new }
{
    cells::need::<Data>(registers, 1)?;
    let a = cells::cell::<Data>(registers, cells, 0);
    cells::replace(registers, cells, 1, of_one(word, a));
    Ok(())
}
