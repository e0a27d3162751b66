// The words that divide, floored. `/` and MOD differ in the half of the pair that they take; what they share is `divided`.
ghost use Rattle.std.specs.Prelude.{◌≡◌, Some, None};
ghost use Rattle.data_words.specs.Dividing.{Divides};
ghost use Rattle.data_words.specs.Numbers.{divide_number};
ghost use Rattle.fault.specs.declared.Reason.TheVariants.{BadQuotient};
ghost use Rattle.steps.specs.Does.{OnCells};
ghost use Rattle.steps.specs.Seats.{IsAnswered};

use super::words::DivideWord;
use definition::ranged::Registers;
use fault::{Fault, Reason};
use steps::cells::{self, Data};
use steps::faults::refusal;

// The pair, if there is one.
fn in_cells(registers: &Registers, answer: Option<(u16, u16)>) -> Result<(u16, u16), Fault>
    ensures { IsAnswered result (λ p. answer ≡ Some p) (answer ≡ None) BadQuotient registers.now.seat }
{
    answer.ok_or(refusal(registers, Reason::BadQuotient))
}

// Remainder and quotient of the two cells on top, which stay.
fn divided(registers: &Registers, cells: &[u16; 128]) -> Result<(u16, u16), Fault>
    ensures { Divides registers.now cells.now result }
{
    cells::need::<Data>(registers, 2)?;
    let dividend = cells::cell::<Data>(registers, cells, 1);
    let divisor = cells::cell::<Data>(registers, cells, 0);
    in_cells(registers, numbers::divide(dividend, divisor))
}

fn slash(registers: &mut Registers, cells: &mut [u16; 128]) -> Result<(), Fault>
    ensures { OnCells 13 registers.old cells.old result registers.new cells.new }
{
    let (_, quotient) = divided(registers, cells)?;
    cells::replace(registers, cells, 2, quotient);
    Ok(())
}

fn modulo(registers: &mut Registers, cells: &mut [u16; 128]) -> Result<(), Fault>
    ensures { OnCells 14 registers.old cells.old result registers.new cells.new }
{
    let (remainder, _) = divided(registers, cells)?;
    cells::replace(registers, cells, 2, remainder);
    Ok(())
}

fn slash_mod(registers: &mut Registers, cells: &mut [u16; 128]) -> Result<(), Fault>
    ensures { OnCells 15 registers.old cells.old result registers.new cells.new }
{
    let (remainder, quotient) = divided(registers, cells)?;
    cells::replace(registers, cells, 2, remainder);
    cells::push::<Data>(registers, cells, quotient);
    Ok(())
}

fn times_slash(registers: &mut Registers, cells: &mut [u16; 128]) -> Result<(), Fault>
    ensures { OnCells 16 registers.old cells.old result registers.new cells.new }
{
    cells::need::<Data>(registers, 3)?;
    let first = cells::cell::<Data>(registers, cells, 2);
    let second = cells::cell::<Data>(registers, cells, 1);
    let divisor = cells::cell::<Data>(registers, cells, 0);
    let (_, quotient) = in_cells(registers, numbers::divide_product(first, second, divisor))?;
    cells::replace(registers, cells, 3, quotient);
    Ok(())
}

// / MOD /MOD */
pub fn divide_word(
    registers: &mut Registers,
    word: DivideWord,
    cells: &mut [u16; 128],
) -> Result<(), Fault>
    ensures { OnCells (divide_number word) registers.old cells.old result registers.new cells.new }
{
    // One dispatch per step: a match on the word, and no table of functions.
    match word {
        DivideWord::Slash => slash(registers, cells),
        DivideWord::Mod => modulo(registers, cells),
        DivideWord::SlashMod => slash_mod(registers, cells),
        DivideWord::TimesSlash => times_slash(registers, cells),
    }
}
