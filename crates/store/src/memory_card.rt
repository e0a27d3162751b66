ghost use Rattle.std.specs.Prelude.{◌≡◌, true, false, MatchResult};
ghost use Rattle.fault.specs.Numbers.{fault_of, place_of};
ghost use Rattle.fault.specs.declared.Reason.TheVariants.{WrongLength};
ghost use Rattle.store.specs.Cards.{BlocksInOrder, is_memory_card, memory_card};
ghost use Rattle.store.specs.Soundness.{card_sound};

use super::Store;
use super::blocks::{blocks_in, count_blocks, read_block};
use fault::{Fault, Place, Reason};

// A card over lent bytes, always writable; one that the query refuses has no blocks.
#[derive(Drop)]
pub struct MemoryCard<'a> {
    bytes: &'a mut [u8],
}

impl<'a> MemoryCard<'a> {
    // Are the bytes at most 65,535 whole blocks? Block n of the card is then the n-th 1,024 bytes.
    #[tactic(auto, using(crate::proofs::BlockLaws::blocks_in_order))]
    pub fn query(bytes: &[u8]) -> Result<(), Fault>
        ensures answer { MatchResult result (λ _. is_memory_card bytes.now ≡ true) (λ f. (is_memory_card bytes.now ≡ false) × (f ≡ fault_of WrongLength (place_of 0 0 0))) }
        ensures order { BlocksInOrder bytes.now }
    {
        match blocks_in(bytes.len()) {
            Some(_) => Ok(()),
            None => Err(Fault::new(Reason::WrongLength, Place::nowhere())),
        }
    }

    // The card over these bytes.
    pub fn new(bytes: &'a mut [u8]) -> MemoryCard<'a>
        ensures { result.bytes.now ≡ bytes.old }
    {
        MemoryCard { bytes }
    }
}

impl<'a> Store for MemoryCard<'a> {
    ghost means = { λ c. memory_card c.bytes.now };

    ghost sound = { λ c. card_sound true c.bytes.now };

    fn count(&self) -> u16 {
        count_blocks(self.bytes.len())
    }

    fn writable(&self) -> bool {
        true
    }

    fn read(&self, n: u16, into: &mut [u8; 1024], at: Place) -> Result<(), Fault> {
        read_block(self.bytes, n, into, at)
    }

    #[tactic(auto, using(crate::proofs::BlockLaws::put_at))]
    fn write(&mut self, n: u16, from: &[u8; 1024], at: Place) -> Result<(), Fault> {
        if n >= count_blocks(self.bytes.len()) {
            return Err(Fault::new(Reason::NoBlock, at));
        }
        // A range: of what is written through `as_chunks_mut` the check knows nothing afterwards.
        let start = usize::from(n) * 1024;
        self.bytes[start..start + 1024].copy_from_slice(from);
        Ok(())
    }
}
