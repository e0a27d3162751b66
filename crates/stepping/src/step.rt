// One step.
ghost use Rattle.std.specs.Prelude.{◌≡◌, length, take};
ghost use Rattle.codes.specs.Performs.{memory};
ghost use Rattle.stepping.specs.Lawful.{FaultKept, Lawful};
ghost use Rattle.stepping.specs.Steps.{Starts, Steps, Tries};

use super::next::Next;
use super::positions::go_back;
use super::text::read_text;
use super::token::take_token;
use definition::ranged::Registers;
use definition::registers::Mark;
use executing::execution::execute;
use fault::Fault;
use steps::progress::Progress;
use store::Store;
use typing_words::output::Output;

// The text is read while IP is 0; else the token at IP is taken.
fn start<S: Store>(
    registers: &mut Registers,
    image: &mut [u8; 65536],
    cells: &mut [u16; 128],
    store: &mut S,
) -> Result<Next, Fault>
    ensures did { Starts registers.old image.old cells.old (S.Store.means store.old) result registers.new image.new cells.new (S.Store.means store.new) }
    ensures below { take 256 image.new ≡ take 256 image.old }
{
    if registers.seat.flow.ip == 0 {
        return read_text(registers, image, cells, store);
    }
    Ok(Next::Execute(take_token(registers, image)?))
}

// The step, but for what a fault leaves.
fn attempt<S: Store>(
    registers: &mut Registers,
    image: &mut [u8; 65536],
    cells: &mut [u16; 128],
    returns: &mut [u16; 128],
    marks: &mut [Mark; 32],
    output: &mut Output,
    store: &mut S,
) -> Result<Progress, Fault>
    ensures did { Tries registers.old (memory image.old cells.old returns.old marks.old output.old.bytes.now output.old.typed (S.Store.means store.old)) result registers.new (memory image.new cells.new returns.new marks.new output.new.bytes.now output.new.typed (S.Store.means store.new)) }
    ensures below { take 256 image.new ≡ take 256 image.old }
    ensures size { length output.new.bytes.now ≡ length output.old.bytes.now }
    ensures same_reference { output.new.bytes.ghost_name ≡ output.old.bytes.ghost_name }
{
    let source = registers.seat.source;
    let ip = registers.seat.flow.ip;
    let token = match start(registers, image, cells, store)? {
        Next::Went => return Ok(Progress::Went),
        Next::Finished => return Ok(Progress::Finished),
        Next::Execute(token) => token,
    };
    let progress = execute(
        registers, token, image, cells, returns, marks, output, store,
    )?;
    if let Progress::Full = progress {
        go_back(registers, source, ip);
    }
    Ok(progress)
}

// One step. One that would type more than there is space for is not taken, and all is as it was; one that faults leaves what a fault leaves.
pub fn step<S: Store>(
    registers: &mut Registers,
    image: &mut [u8; 65536],
    cells: &mut [u16; 128],
    returns: &mut [u16; 128],
    marks: &mut [Mark; 32],
    output: &mut Output,
    store: &mut S,
) -> Result<Progress, Fault>
    ensures did { Steps registers.old (memory image.old cells.old returns.old marks.old output.old.bytes.now output.old.typed (S.Store.means store.old)) result registers.new (memory image.new cells.new returns.new marks.new output.new.bytes.now output.new.typed (S.Store.means store.new)) }
    ensures lawful { Lawful registers.old (memory image.old cells.old returns.old marks.old output.old.bytes.now output.old.typed (S.Store.means store.old)) result registers.new (memory image.new cells.new returns.new marks.new output.new.bytes.now output.new.typed (S.Store.means store.new)) }
    ensures kept { FaultKept registers.old (memory image.old cells.old returns.old marks.old output.old.bytes.now output.old.typed (S.Store.means store.old)) result registers.new (memory image.new cells.new returns.new marks.new output.new.bytes.now output.new.typed (S.Store.means store.new)) }
    ensures below { take 256 image.new ≡ take 256 image.old }
    ensures size { length output.new.bytes.now ≡ length output.old.bytes.now }
    ensures same_reference { output.new.bytes.ghost_name ≡ output.old.bytes.ghost_name }
{
    let done = attempt(registers, image, cells, returns, marks, output, store);
    if done.is_err() {
        registers.clear();
    }
    done
}
