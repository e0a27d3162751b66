// The dictionary that a seat works on: the machine's registers as the dictionary's own, and back.
ghost use Rattle.std.specs.Prelude.{◌≡◌};
ghost use Rattle.steps.specs.Parts.{share_of, seat_with};

use definition::ranged::Registers;
use dictionary::registers::Dictionary;

// The shared ends and names, and the seat's search order.
pub fn dictionary_of(registers: &Registers) -> Dictionary
    ensures ends { result.ends ≡ registers.now.shared.ends }
    ensures names { result.names ≡ registers.now.shared.names }
    ensures order { result.order ≡ registers.now.seat.order }
{
    Dictionary {
        ends: registers.shared.ends,
        names: registers.shared.names,
        order: registers.seat.order,
    }
}

// The registers go on with a dictionary that was changed.
pub fn keep(registers: &mut Registers, d: Dictionary)
    ensures shared { registers.new.shared ≡ share_of d.ends d.names registers.old.shared }
    ensures seat { registers.new.seat ≡ seat_with d.order registers.old.seat }
{
    registers.shared.ends = d.ends;
    registers.shared.names = d.names;
    registers.seat.order = d.order;
}
