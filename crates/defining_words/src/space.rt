// Dictionary space that is asked for before anything is written, and data space that grows by a cell.
ghost use Rattle.std.specs.Prelude.{◌≡◌, ◌+◌, ◌<◌, ◌≤◌, take};
ghost use Rattle.definition.specs.Define.{entry_size};
ghost use Rattle.fault.specs.declared.Reason.TheVariants.{DictionaryFull};
ghost use Rattle.image.specs.Cells.{cell};
ghost use Rattle.image.specs.Writes.{overwritten};
ghost use Rattle.steps.specs.DataSpace.{with_here};
ghost use Rattle.steps.specs.Seats.{IsAnswered};
ghost use Rattle.texts.specs.Names.{name_of};

use definition::ranged::Registers;
use fault::{Fault, Reason};
use steps::data_space::move_here;
use steps::faults::ask;
use texts::name::Name;

// What an entry holds besides its name, up to its first parameter cell.
const UNNAMED: usize = 9;

// Is there dictionary space for the entry of a name with one more parameter cell?
pub(crate) fn ask_entry_space(registers: &Registers, name: &Name) -> Result<(), Fault>
    ensures { IsAnswered result (λ _. registers.now.shared.ends.dp + (entry_size (name_of name.now) + 2) ≤ 32768) (32768 < registers.now.shared.ends.dp + (entry_size (name_of name.now) + 2)) DictionaryFull registers.now.seat }
{
    let size = UNNAMED + name.text().len() + 2;
    let end = usize::from(registers.shared.ends.dp) + size;
    ask(registers, end <= 32768, Reason::DictionaryFull)
}

// Data space grows by a cell of 0.
pub(crate) fn grow_by_cell(registers: &mut Registers, image: &mut [u8; 65536])
    requires { registers.old.shared.ends.here + 2 ≤ 65535 }
    ensures shared { registers.new.shared ≡ with_here (registers.old.shared.ends.here + 2) registers.old.shared }
    ensures seat { registers.new.seat ≡ registers.old.seat }
    ensures written { image.new ≡ overwritten registers.old.shared.ends.here (cell 0) image.old }
{
    image::store(image, usize::from(registers.shared.ends.here), 0);
    move_here(registers, 2);
}
