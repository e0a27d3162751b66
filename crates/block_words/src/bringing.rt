// The buffer's block: written out if it was updated, and read in.
ghost use Rattle.std.specs.Prelude.{◌≡◌, true, false, length, take, Some, None};
ghost use Rattle.definition.specs.Blocks.{brought, read_from, saved};
ghost use Rattle.block_words.specs.Buffers.{Brings, holding, with_buffer};

use definition::places::BUFFER;
use definition::ranged::Registers;
use definition::registers::Buffer;
use fault::Fault;
use steps::faults::place;
use store::Store;

// Does the buffer hold block n?
pub fn holds(registers: &Registers, n: u16) -> bool
    ensures { result ≡ holding registers.now.shared.buffer.held n }
{
    registers.shared.buffer.held == Some(n)
}

// A buffer with block n as the store has it.
fn fresh(n: u16) -> Buffer
    ensures { result ≡ record { held = Some n; updated = false } }
{
    Buffer {
        held: Some(n),
        updated: false,
    }
}

// The buffer's registers become these.
pub(crate) fn assign(registers: &mut Registers, buffer: Buffer)
    ensures shared { registers.new.shared ≡ with_buffer buffer registers.old.shared }
    ensures seat { registers.new.seat ≡ registers.old.seat }
{
    registers.shared.buffer = buffer;
}

// Writes an updated buffer out, and clears the flag.
pub(crate) fn write_out<S: Store>(
    registers: &mut Registers,
    image: &[u8; 65536],
    store: &mut S,
) -> Result<(), Fault>
    ensures did { Brings saved registers.old image.now (S.Store.means store.old) result registers.new image.now (S.Store.means store.new) }
    ensures seat { registers.new.seat ≡ registers.old.seat }
{
    if !registers.shared.buffer.updated {
        return Ok(());
    }
    let Some(n) = registers.shared.buffer.held else {
        return Ok(());
    };
    store.write(n, image[BUFFER..].first_chunk().unwrap(), place(registers))?;
    assign(registers, fresh(n));
    Ok(())
}

// Reads block n into the buffer.
fn read_in<S: Store>(
    registers: &mut Registers,
    image: &mut [u8; 65536],
    store: &S,
    n: u16,
) -> Result<(), Fault>
    ensures did { Brings (read_from n) registers.old image.old (S.Store.means store.now) result registers.new image.new (S.Store.means store.now) }
    ensures below { take 256 image.new ≡ take 256 image.old }
    ensures seat { registers.new.seat ≡ registers.old.seat }
{
    let at = place(registers);
    let (_, rest) = image.split_at_mut(BUFFER);
    store.read(n, rest.first_chunk_mut().unwrap(), at)?;
    assign(registers, fresh(n));
    Ok(())
}

// Brings block n in, unless it is held: an updated buffer is written out first, and that stays done where the read is refused.
pub fn bring<S: Store>(
    registers: &mut Registers,
    image: &mut [u8; 65536],
    store: &mut S,
    n: u16,
) -> Result<(), Fault>
    ensures did { Brings (brought n) registers.old image.old (S.Store.means store.old) result registers.new image.new (S.Store.means store.new) }
    ensures below { take 256 image.new ≡ take 256 image.old }
    ensures seat { registers.new.seat ≡ registers.old.seat }
{
    if holds(registers, n) {
        return Ok(());
    }
    write_out(registers, image, store)?;
    read_in(registers, image, store, n)
}
