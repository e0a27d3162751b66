// The words on the return stack. EXIT and LEAVE differ in how many cells go and which is kept, >R and R> in which stack gives. The
// calls are shared: one function for two would only choose between them again.
ghost use Rattle.std.specs.Prelude.{◌≡◌, ℕ, ◌<◌, List};
ghost use Rattle.definition.specs.Flow.{do_returns};
ghost use Rattle.definition.specs.Kernel.{copy_at as copied_at};
ghost use Rattle.definition.specs.declared.registers.Mark.{Mark};
ghost use Rattle.inner_words.specs.Numbers.{copied_place, returns_number};
ghost use Rattle.steps.specs.Does.{Does, OnReturns, seen};
ghost use Rattle.store.specs.Meaning.{Meaning};

use super::words::ReturnsWord;
use definition::ranged::Registers;
use fault::Fault;
use steps::cells::{self, Data, Returns};
use steps::inside::ask_inside;
use steps::pointer::go_to;

fn exit(registers: &mut Registers, cells: &[u16; 128], returns: &[u16; 128]) -> Result<(), Fault>
    ensures { (i : List ℕ) → OnReturns 91 registers.old i cells.now returns.now result registers.new cells.now returns.now }
{
    cells::need::<Returns>(registers, 1)?;
    let address = cells::cell::<Returns>(registers, returns, 0);
    cells::release::<Returns>(registers, returns, 1);
    go_to(registers, address);
    Ok(())
}

fn to_r(
    registers: &mut Registers,
    cells: &[u16; 128],
    returns: &mut [u16; 128],
) -> Result<(), Fault>
    ensures { (i : List ℕ) → OnReturns 92 registers.old i cells.now returns.old result registers.new cells.now returns.new }
{
    cells::need::<Data>(registers, 1)?;
    cells::room::<Returns>(registers, 1)?;
    let x = cells::cell::<Data>(registers, cells, 0);
    cells::release::<Data>(registers, cells, 1);
    cells::push::<Returns>(registers, returns, x);
    Ok(())
}

fn r_from(
    registers: &mut Registers,
    cells: &mut [u16; 128],
    returns: &[u16; 128],
) -> Result<(), Fault>
    ensures { (i : List ℕ) → OnReturns 93 registers.old i cells.old returns.now result registers.new cells.new returns.now }
{
    cells::room::<Data>(registers, 1)?;
    cells::need::<Returns>(registers, 1)?;
    let x = cells::cell::<Returns>(registers, returns, 0);
    cells::release::<Returns>(registers, returns, 1);
    cells::push::<Data>(registers, cells, x);
    Ok(())
}

// Which return cell R@, I and J copy: the top, and the outer loop's index, below the three cells of the inner loop. A function, so
// that the place is proved here and not beside the words.
fn copied_place(word: ReturnsWord) -> usize
    ensures { result ≡ copied_place word }
{
    match word {
        ReturnsWord::OuterIndex => 3,
        _ => 0,
    }
}

// The k-th return cell is copied to the data stack.
fn copy_at(
    registers: &mut Registers,
    k: usize,
    cells: &mut [u16; 128],
    returns: &[u16; 128],
) -> Result<(), Fault>
    requires { k < 128 }
    ensures { (i : List ℕ) (m : List Mark) (s : Meaning) → Does (do_returns (copied_at k)) (seen registers.old i cells.old returns.now m s) result (seen registers.new i cells.new returns.now m s) }
{
    cells::room::<Data>(registers, 1)?;
    cells::need::<Returns>(registers, k + 1)?;
    let x = cells::cell::<Returns>(registers, returns, k);
    cells::push::<Data>(registers, cells, x);
    Ok(())
}

fn leave(registers: &mut Registers, cells: &[u16; 128], returns: &[u16; 128]) -> Result<(), Fault>
    ensures { (i : List ℕ) → OnReturns 97 registers.old i cells.now returns.now result registers.new cells.now returns.now }
{
    cells::need::<Returns>(registers, 3)?;
    let address = cells::cell::<Returns>(registers, returns, 2);
    cells::release::<Returns>(registers, returns, 3);
    go_to(registers, address);
    Ok(())
}

// EXIT >R R> R@ I J LEAVE
pub fn returns_word(
    registers: &mut Registers,
    word: ReturnsWord,
    cells: &mut [u16; 128],
    returns: &mut [u16; 128],
) -> Result<(), Fault>
    ensures { (i : List ℕ) → OnReturns (returns_number word) registers.old i cells.old returns.old result registers.new cells.new returns.new }
{
    // One dispatch per step: a match on the word, and no table of functions.
    match word {
        ReturnsWord::Exit => exit(registers, cells, returns),
        ReturnsWord::ToR => to_r(registers, cells, returns),
        ReturnsWord::RFrom => r_from(registers, cells, returns),
        ReturnsWord::RFetch | ReturnsWord::Index | ReturnsWord::OuterIndex => {
            copy_at(registers, copied_place(word), cells, returns)
        }
        ReturnsWord::Leave => leave(registers, cells, returns),
    }
}
