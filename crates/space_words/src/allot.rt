// ALLOT: data space longer or shorter.
ghost use Rattle.std.specs.Prelude.{◌≡◌, ◌+◌, ◌-◌, ◌<◌, ◌≤◌, max, true, false, length, take, replicate};
ghost use Rattle.fault.specs.declared.Reason.TheVariants.{DataFull};
ghost use Rattle.space_words.specs.Allotting.{allowed, lowest_of, moved_by};
ghost use Rattle.image.specs.Cells.{at, cell_at};
ghost use Rattle.image.specs.Views.{low_of};
ghost use Rattle.image.specs.Writes.{overwritten};
ghost use Rattle.steps.specs.DataSpace.{with_here};
ghost use Rattle.steps.specs.Does.{OnSpace};
ghost use Rattle.steps.specs.Seats.{IsAnswered};

use definition::ranged::Registers;
use dictionary::registers::DATA_SPACE;
use entries::Entries;
use fault::{Fault, Reason};
use steps::cells::{self, Data};
use steps::faults::refusal;
use steps::inside::has_newest;

// The lowest that HERE may go: where data space ended when the newest entry began, and not below 34,048.
fn lowest(registers: &Registers, image: &[u8; 65536]) -> u16
    ensures value { result ≡ lowest_of (low_of registers.now.shared.ends.dp image.now) registers.now.shared.names.newest }
    ensures low { 34048 ≤ result }
{
    if !has_newest(registers, image) {
        return DATA_SPACE;
    }
    let newest = registers.shared.names.newest;
    let entries = Entries::new(image, registers.shared.ends.dp);
    DATA_SPACE.max(entries.cell(entries.first_parameter(newest)))
}

// Where HERE goes, if it may.
fn new_end(registers: &Registers, image: &[u8; 65536], n: u16) -> Result<u16, Fault>
    ensures { IsAnswered result (λ end. (end ≡ moved_by registers.now.shared.ends.here n) × (allowed (lowest_of (low_of registers.now.shared.ends.dp image.now) registers.now.shared.names.newest) end ≡ true) × (34048 ≤ end) × (end ≤ 65535)) (allowed (lowest_of (low_of registers.now.shared.ends.dp image.now) registers.now.shared.names.newest) (moved_by registers.now.shared.ends.here n) ≡ false) DataFull registers.now.seat }
{
    let lowest = lowest(registers, image);
    let end = registers
        .shared
        .ends
        .here
        .checked_add_signed(n.cast_signed());
    end.filter(|&end| lowest <= end)
        .ok_or(refusal(registers, Reason::DataFull))
}

// HERE goes to an end, and what is added is cleared.
fn resize(registers: &mut Registers, image: &mut [u8; 65536], end: u16)
    requires { 34048 ≤ end }
    ensures shared { registers.new.shared ≡ with_here end registers.old.shared }
    ensures seat { registers.new.seat ≡ registers.old.seat }
    ensures cleared { image.new ≡ overwritten registers.old.shared.ends.here (replicate (end - registers.old.shared.ends.here) 0) image.old }
{
    let here = registers.shared.ends.here;
    let added = end.saturating_sub(here);
    image::fill(image, usize::from(here), usize::from(added), 0);
    registers.shared.ends.here = end;
}

// ALLOT
pub fn allot(
    registers: &mut Registers,
    image: &mut [u8; 65536],
    cells: &[u16; 128],
) -> Result<(), Fault>
    ensures did { OnSpace 46 registers.old image.old cells.now result registers.new image.new cells.now }
    ensures below { take 256 image.new ≡ take 256 image.old }
{
    cells::need::<Data>(registers, 1)?;
    let n = cells::cell::<Data>(registers, cells, 0);
    let end = new_end(registers, image, n)?;
    resize(registers, image, end);
    cells::release::<Data>(registers, cells, 1);
    Ok(())
}
