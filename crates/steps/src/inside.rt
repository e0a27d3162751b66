// What lies in the dictionary.
ghost use Rattle.std.specs.Prelude.{◌≡◌, ◌+◌, ◌≤◌, true, false, length};
ghost use Rattle.dictionary.specs.Trim.{ordered};
ghost use Rattle.entries.specs.Threads.{IsInOrder};
ghost use Rattle.fault.specs.declared.Reason.TheVariants.{BadToken};
ghost use Rattle.image.specs.Views.{low_of};
ghost use Rattle.steps.specs.Inside.{inside};
ghost use Rattle.steps.specs.Seats.{IsAnswered};

use super::faults::ask;
use definition::ranged::Registers;
use entries::Entries;
use fault::{Fault, Reason};

// Are the n bytes at an address in the dictionary, from 256 to below DP?
pub fn is_inside(registers: &Registers, address: u16, n: u16) -> bool
    ensures value { result ≡ inside address n registers.now.shared.ends.dp }
    ensures within { result ≡ true → address + n ≤ 32768 }
{
    let dp = usize::from(registers.shared.ends.dp);
    address >= 256 && usize::from(address) + usize::from(n) <= dp
}

// Does the newest entry lie whole in the dictionary?
#[tactic(auto, using(entries::proofs::Walks::in_order_is))]
pub fn has_newest(registers: &Registers, image: &[u8; 65536]) -> bool
    ensures value { result ≡ ordered (low_of registers.now.shared.ends.dp image.now) (length (low_of registers.now.shared.ends.dp image.now)) registers.now.shared.names.newest }
    ensures whole { result ≡ true → IsInOrder (low_of registers.now.shared.ends.dp image.now) (length (low_of registers.now.shared.ends.dp image.now)) registers.now.shared.names.newest }
{
    let entries = Entries::new(image, registers.shared.ends.dp);
    entries.in_order(entries.end(), registers.shared.names.newest)
}

// The bytes at an address as a question.
pub fn ask_inside(registers: &Registers, address: u16, n: u16) -> Result<(), Fault>
    ensures { IsAnswered result (λ _. (inside address n registers.now.shared.ends.dp ≡ true) × (address + n ≤ 32768)) (inside address n registers.now.shared.ends.dp ≡ false) BadToken registers.now.seat }
{
    ask(
        registers,
        is_inside(registers, address, n),
        Reason::BadToken,
    )
}
