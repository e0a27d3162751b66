// The words that copy, drop or move cells.
ghost use Rattle.std.specs.Prelude.{ℕ, ◌<◌, List};
ghost use Rattle.data_words.specs.Moving.{copied, ReachesOver, rolled_up};
ghost use Rattle.data_words.specs.Numbers.{stack_number};
ghost use Rattle.definition.specs.declared.registers.Mark.{Mark};
ghost use Rattle.steps.specs.Does.{Does, OnCells, seen};
ghost use Rattle.store.specs.Meaning.{Meaning};

use super::words::StackWord;
use definition::ranged::Registers;
use fault::Fault;
use steps::cells::{self, Data};

// DUP and OVER: the k-th cell is copied to the top; the bound on k, here and below, is against overflow alone.
fn copy_cell(registers: &mut Registers, k: usize, cells: &mut [u16; 128]) -> Result<(), Fault>
    requires { k < 128 }
    ensures { (i t : List ℕ) (n : List Mark) (s : Meaning) → Does (copied k) (seen registers.old i cells.old t n s) result (seen registers.new i cells.new t n s) }
{
    cells::need::<Data>(registers, k + 1)?;
    let x = cells::cell::<Data>(registers, cells, k);
    cells::leave(registers, cells, x)
}

// SWAP and ROT: the k-th cell is taken out and put on top.
fn roll_cell(registers: &Registers, k: usize, cells: &mut [u16; 128]) -> Result<(), Fault>
    requires { k < 128 }
    ensures { (i t : List ℕ) (n : List Mark) (s : Meaning) → Does (rolled_up k) (seen registers.now i cells.old t n s) result (seen registers.now i cells.new t n s) }
{
    cells::need::<Data>(registers, k + 1)?;
    stacks::roll(cells, usize::from(registers.seat.depths.cells), k);
    Ok(())
}

fn drop_cell(registers: &mut Registers, cells: &mut [u16; 128]) -> Result<(), Fault>
    ensures { OnCells 2 registers.old cells.old result registers.new cells.new }
{
    cells::need::<Data>(registers, 1)?;
    cells::release::<Data>(registers, cells, 1);
    Ok(())
}

fn question_dup(registers: &mut Registers, cells: &mut [u16; 128]) -> Result<(), Fault>
    ensures { OnCells 6 registers.old cells.old result registers.new cells.new }
{
    cells::need::<Data>(registers, 1)?;
    let x = cells::cell::<Data>(registers, cells, 0);
    if x == 0 {
        return Ok(());
    }
    cells::leave(registers, cells, x)
}

// PICK and ROLL: the number k on top, if there are k cells to reach over and the one that is meant.
fn reached_over(registers: &Registers, cells: &[u16; 128]) -> Result<usize, Fault>
    ensures { ReachesOver registers.now cells.now result }
{
    cells::need::<Data>(registers, 1)?;
    let k = usize::from(cells::cell::<Data>(registers, cells, 0));
    cells::need::<Data>(registers, k + 2)?;
    Ok(k)
}

fn pick(registers: &mut Registers, cells: &mut [u16; 128]) -> Result<(), Fault>
    ensures { OnCells 8 registers.old cells.old result registers.new cells.new }
{
    let k = reached_over(registers, cells)?;
    let x = cells::cell::<Data>(registers, cells, k + 1);
    cells::replace(registers, cells, 1, x);
    Ok(())
}

fn roll(registers: &mut Registers, cells: &mut [u16; 128]) -> Result<(), Fault>
    ensures { OnCells 9 registers.old cells.old result registers.new cells.new }
{
    let k = reached_over(registers, cells)?;
    cells::release::<Data>(registers, cells, 1);
    stacks::roll(cells, usize::from(registers.seat.depths.cells), k);
    Ok(())
}

// DUP DROP SWAP OVER ROT ?DUP PICK ROLL
pub fn stack_word(
    registers: &mut Registers,
    word: StackWord,
    cells: &mut [u16; 128],
) -> Result<(), Fault>
    ensures { OnCells (stack_number word) registers.old cells.old result registers.new cells.new }
{
    // One dispatch per step: a match on the word, and no table of functions.
    match word {
        StackWord::Dup => copy_cell(registers, 0, cells),
        StackWord::Drop => drop_cell(registers, cells),
        StackWord::Swap => roll_cell(registers, 1, cells),
        StackWord::Over => copy_cell(registers, 1, cells),
        StackWord::Rot => roll_cell(registers, 2, cells),
        StackWord::QuestionDup => question_dup(registers, cells),
        StackWord::Pick => pick(registers, cells),
        StackWord::Roll => roll(registers, cells),
    }
}
