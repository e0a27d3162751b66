// A fault with the place that the registers tell.
ghost use Rattle.std.specs.Prelude.{◌≡◌, true, false};
ghost use Rattle.fault.specs.Numbers.{fault_of};
ghost use Rattle.steps.specs.Seats.{IsAnswered, told_by};

use definition::ranged::Registers;
use fault::{Fault, Place, Reason};

// BLK, and the place and length of the last word taken, as a fault and a store call are told them.
pub fn place(registers: &Registers) -> Place
    ensures { result ≡ told_by registers.now.seat }
{
    let source = registers.seat.source;
    Place {
        blk: source.position.blk,
        start: source.word.start,
        length: source.word.length,
    }
}

// A no to a question, with its place.
pub fn refusal(registers: &Registers, reason: Reason) -> Fault
    ensures { result ≡ fault_of reason (told_by registers.now.seat) }
{
    Fault::new(reason, place(registers))
}

// A question that is answered: a no is refused for this reason.
pub fn ask(registers: &Registers, answer: bool, reason: Reason) -> Result<(), Fault>
    ensures { IsAnswered result (λ _. answer ≡ true) (answer ≡ false) reason registers.now.seat }
{
    if answer {
        Ok(())
    } else {
        Err(refusal(registers, reason))
    }
}
