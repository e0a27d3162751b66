// The end of data space.
ghost use Rattle.std.specs.Prelude.{◌≡◌, ◌+◌, ◌<◌, ◌≤◌};
ghost use Rattle.fault.specs.declared.Reason.TheVariants.{DataFull};
ghost use Rattle.steps.specs.DataSpace.{with_here};
ghost use Rattle.steps.specs.Seats.{IsAnswered};

use super::faults::ask;
use definition::ranged::Registers;
use fault::{Fault, Reason};

// Is there data space for n bytes more?
pub fn ask_data_space(registers: &Registers, n: u16) -> Result<(), Fault>
    ensures { IsAnswered result (λ _. registers.now.shared.ends.here + n ≤ 65535) (65535 < registers.now.shared.ends.here + n) DataFull registers.now.seat }
{
    let fits = registers.shared.ends.here.checked_add(n).is_some();
    ask(registers, fits, Reason::DataFull)
}

// HERE moves up by n.
pub fn move_here(registers: &mut Registers, n: u16)
    requires { registers.old.shared.ends.here + n ≤ 65535 }
    ensures shared { registers.new.shared ≡ with_here (registers.old.shared.ends.here + n) registers.old.shared }
    ensures seat { registers.new.seat ≡ registers.old.seat }
{
    registers.shared.ends.here += n;
}
