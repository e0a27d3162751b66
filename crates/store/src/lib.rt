// Block stores: what a store means, a memory card over lent bytes, and a card over lines of text, sixteen lines a block, not writable.
#![tactic(auto)]

mod blocks;
mod lines;
mod memory_card;
mod text_card;

ghost use Rattle.std.specs.Prelude.{◌≡◌};
ghost use Rattle.store.specs.Meaning.{Meaning, Reads, Sound, Writes};

use fault::{Fault, Place};
pub use lines::first_long_line;
pub use memory_card::MemoryCard;
pub use text_card::TextCard;

// A count, writable or not, and that many blocks of 1,024 bytes.
pub trait Store {
    ghost means: { Self → Meaning };

    ghost sound: { (s : Self) → Sound (means s) };

    fn count(&self) -> u16
        ensures { result ≡ (means self.now).count };

    fn writable(&self) -> bool
        ensures { result ≡ (means self.now).writable };

    // Fills `into` with block n.
    fn read(&self, n: u16, into: &mut [u8; 1024], at: Place) -> Result<(), Fault>
        ensures { Reads (means self.now) n into.old at result into.new };

    // Replaces block n by `from`.
    fn write(&mut self, n: u16, from: &[u8; 1024], at: Place) -> Result<(), Fault>
        ensures { Writes (means self.old) n from.now at result (means self.new) };
}
