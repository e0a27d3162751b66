// A token, executed: EXECUTE is all one step with the word that it executes.
ghost use Rattle.std.specs.Prelude.{◌≡◌, length, take};
ghost use Rattle.codes.specs.Performs.{memory, Acts};
ghost use Rattle.definition.specs.Words.{execute};

use super::performing::perform;
use super::tokens::through_execute;
use definition::ranged::Registers;
use definition::registers::Mark;
use fault::Fault;
use steps::cells::{CellStack, Data};
use steps::progress::Progress;
use store::Store;
use typing_words::output::Output;

// Where there is no space for what the word types, the cells that EXECUTE took off come back, and all is as it was.
pub fn execute<S: Store>(
    registers: &mut Registers,
    token: u16,
    image: &mut [u8; 65536],
    cells: &mut [u16; 128],
    returns: &mut [u16; 128],
    marks: &mut [Mark; 32],
    output: &mut Output,
    store: &mut S,
) -> Result<Progress, Fault>
    ensures did { Acts (execute token) registers.old (memory image.old cells.old returns.old marks.old output.old.bytes.now output.old.typed (S.Store.means store.old)) result registers.new (memory image.new cells.new returns.new marks.new output.new.bytes.now output.new.typed (S.Store.means store.new)) }
    ensures below { take 256 image.new ≡ take 256 image.old }
    ensures size { length output.new.bytes.now ≡ length output.old.bytes.now }
    ensures same_reference { output.new.bytes.ghost_name ≡ output.old.bytes.ghost_name }
{
    let depth = registers.seat.depths.cells;
    let found = through_execute(registers, image, cells, token)?;
    let progress = perform(
        registers,
        found.code,
        found.token,
        image,
        cells,
        returns,
        marks,
        output,
        store,
    )?;
    if let Progress::Full = progress {
        Data::set_depth(registers, depth);
    }
    Ok(progress)
}
