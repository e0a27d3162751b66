// LOAD, and the end of a load.
ghost use Rattle.std.specs.Prelude.{◌≡◌, ◌<◌, ◌≤◌, true, false, not, ◌&&◌, ◌∷◌};
ghost use Rattle.definition.specs.View.{loads_of};
ghost use Rattle.fault.specs.declared.Reason.TheVariants.{BadLoad};
ghost use Rattle.block_words.specs.Reading.{EndsLoad, from, loadable};
ghost use Rattle.steps.specs.Does.{OnCells};
ghost use Rattle.steps.specs.Seats.{IsAnswered};

use super::stack::{end_one, open_one};
use definition::ranged::Registers;
use definition::registers::Position;
use fault::{Fault, Reason};
use steps::cells::{self, Data};
use steps::faults::ask;

fn is_loadable(blk: u16, count: u16) -> bool
    ensures { result ≡ loadable blk count }
{
    blk != 0 && count < 8
}

// Can the block be loaded, and is there a place for its caller?
fn ask_load(registers: &Registers, blk: u16) -> Result<(), Fault>
    ensures { IsAnswered result (λ _. (loadable blk registers.now.seat.loads.count ≡ true) × (registers.now.seat.loads.count < 8)) (loadable blk registers.now.seat.loads.count ≡ false) BadLoad registers.now.seat }
{
    ask(
        registers,
        is_loadable(blk, registers.seat.loads.count),
        Reason::BadLoad,
    )
}

// Text goes on at the start of a block, and its caller is kept.
fn open_block(registers: &mut Registers, blk: u16)
    requires { registers.old.seat.loads.count < 8 }
    ensures shared { registers.new.shared ≡ registers.old.shared }
    ensures seat { registers.new.seat ≡ from (record { blk = blk; offset = 0 }) registers.new.seat.loads registers.old.seat }
    ensures loads { loads_of registers.new.seat.loads ≡ registers.old.seat.source.position ∷ loads_of registers.old.seat.loads }
{
    open_one(&mut registers.seat.loads, registers.seat.source.position);
    registers.seat.source.position = Position { blk, offset: 0 };
}

// LOAD: its text is read from the next step on.
pub fn load_word(registers: &mut Registers, cells: &[u16; 128]) -> Result<(), Fault>
    ensures { OnCells 58 registers.old cells.now result registers.new cells.now }
{
    cells::need::<Data>(registers, 1)?;
    let blk = cells::cell::<Data>(registers, cells, 0);
    ask_load(registers, blk)?;
    open_block(registers, blk);
    cells::release::<Data>(registers, cells, 1);
    Ok(())
}

// Where no word is left: the innermost load ends and its caller goes on. Is there none, the line is finished: a bool,
// since there is no value and no reason to tell.
pub fn end_load(registers: &mut Registers) -> bool
    ensures { EndsLoad registers.old result registers.new }
{
    if registers.seat.loads.count == 0 {
        return false;
    }
    registers.seat.source.position = end_one(&mut registers.seat.loads);
    true
}
