// What a word may fetch and store.
ghost use Rattle.std.specs.Prelude.{◌≡◌, ◌+◌, ◌≤◌, true, false, take};
ghost use Rattle.fault.specs.declared.Reason.TheVariants.{OutOfReach};
ghost use Rattle.image.specs.Cells.{cell};
ghost use Rattle.image.specs.Writes.{overwritten};
ghost use Rattle.space_words.specs.Numbers.{reachable};
ghost use Rattle.steps.specs.Seats.{IsAnswered};

use definition::ranged::Registers;
use fault::{Fault, Reason};
use steps::faults::ask;

// Are the n bytes at an address in reach, from 32,768 to below HERE?
pub fn reach(registers: &Registers, address: u16, n: u16) -> Result<(), Fault>
    ensures { IsAnswered result (λ _. (reachable address n registers.now.shared.ends.here ≡ true) × (address + n ≤ 65535)) (reachable address n registers.now.shared.ends.here ≡ false) OutOfReach registers.now.seat }
{
    let end = usize::from(address) + usize::from(n);
    let within = address >= 32768 && end <= usize::from(registers.shared.ends.here);
    ask(registers, n == 0 || within, Reason::OutOfReach)
}

// Writes the n low bytes of a cell at an address.
#[tactic(auto, using(crate::proofs::Bytes::low_bytes))]
pub(crate) fn put(image: &mut [u8; 65536], address: u16, n: u16, x: u16)
    requires { (n ≤ 2) × (address + n ≤ 65536) }
    ensures { image.new ≡ overwritten address (take n (cell x)) image.old }
{
    let bytes = x.to_le_bytes();
    image::append(image, usize::from(address), &bytes[..usize::from(n)]);
}
