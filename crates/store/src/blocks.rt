// Bytes as blocks: how many there are, and reading one.
ghost use Rattle.std.specs.Prelude.{◌≡◌, ◌/◌, Some, None, if◌then◌else◌};
ghost use Rattle.store.specs.Meaning.{Reads};
ghost use Rattle.store.specs.Cards.{is_whole, memory_card, whole_blocks};

use fault::{Fault, Place, Reason};

// How many blocks n bytes are, where they are whole and at most 65,535.
pub(crate) fn blocks_in(n: usize) -> Option<u16>
    ensures { result ≡ (if is_whole n then Some (n / 1024) else None) }
{
    if n % 1024 != 0 {
        return None;
    }
    u16::try_from(n / 1024).ok()
}

// How many blocks n bytes are; none where they are not whole.
pub(crate) fn count_blocks(n: usize) -> u16
    ensures { result ≡ whole_blocks n }
{
    blocks_in(n).unwrap_or(0)
}

// Fills `into` with block n of the bytes.
#[tactic(auto, using(crate::proofs::BlockLaws::read_at))]
pub(crate) fn read_block(
    bytes: &[u8],
    n: u16,
    into: &mut [u8; 1024],
    at: Place,
) -> Result<(), Fault>
    ensures { Reads (memory_card bytes.now) n into.old at result into.new }
{
    if n >= count_blocks(bytes.len()) {
        return Err(Fault::new(Reason::NoBlock, at));
    }
    let start = usize::from(n) * 1024;
    into.copy_from_slice(&bytes[start..start + 1024]);
    Ok(())
}
