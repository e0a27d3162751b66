// IP.
ghost use Rattle.std.specs.Prelude.{◌≡◌, if◌then◌else◌, nat_eq};
ghost use Rattle.steps.specs.Seats.{with_pointer, with_return_depth};

use super::cells::{CellStack, Returns};
use definition::ranged::Registers;

// IP is an address; the return stack stays as it is.
pub fn set_pointer(registers: &mut Registers, address: u16)
    ensures shared { registers.new.shared ≡ registers.old.shared }
    ensures seat { registers.new.seat ≡ with_pointer address registers.old.seat }
{
    registers.seat.flow.ip = address;
}

// IP goes to an address; when it becomes 0 the return stack is emptied.
pub fn go_to(registers: &mut Registers, address: u16)
    ensures shared { registers.new.shared ≡ registers.old.shared }
    ensures seat { registers.new.seat ≡ with_return_depth (if nat_eq address 0 then 0 else registers.old.seat.depths.returns) (with_pointer address registers.old.seat) }
{
    set_pointer(registers, address);
    if address == 0 {
        Returns::set_depth(registers, 0);
    }
}
