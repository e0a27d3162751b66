// BLOCK, UPDATE and FLUSH.
ghost use Rattle.std.specs.Prelude.{◌≡◌, ℕ, true, false, List, length, take, None};
ghost use Rattle.block_words.specs.Buffers.{block_number};
ghost use Rattle.steps.specs.Does.{OnBlocks};

use super::bringing::{assign, bring, write_out};
use definition::places::BUFFER;
use definition::ranged::Registers;
use definition::registers::Buffer;
use fault::{Fault, Reason};
use steps::cells::{self, Data};
use steps::faults::ask;
use store::Store;

#[derive(Clone, Copy)]
pub enum BlockWord {
    Block,
    Update,
    Flush,
}

// Where the buffer lies: a function, so that the address is proved here and not in the word.
fn buffer_address() -> u16
    ensures { result ≡ 33024 }
{
    BUFFER as u16
}

fn block<S: Store>(
    registers: &mut Registers,
    image: &mut [u8; 65536],
    cells: &mut [u16; 128],
    store: &mut S,
) -> Result<(), Fault>
    ensures did { OnBlocks 55 registers.old image.old cells.old (S.Store.means store.old) result registers.new image.new cells.new (S.Store.means store.new) }
    ensures below { take 256 image.new ≡ take 256 image.old }
{
    cells::need::<Data>(registers, 1)?;
    let n = cells::cell::<Data>(registers, cells, 0);
    bring(registers, image, store, n)?;
    cells::replace(registers, cells, 1, buffer_address());
    Ok(())
}

// With no block held, nothing is done.
fn update<S: Store>(registers: &mut Registers, store: &S) -> Result<(), Fault>
    ensures { (i c : List ℕ) → OnBlocks 56 registers.old i c (S.Store.means store.now) result registers.new i c (S.Store.means store.now) }
{
    let buffer = registers.shared.buffer;
    if buffer.held.is_none() {
        return Ok(());
    }
    ask(registers, store.writable(), Reason::NotWritable)?;
    assign(
        registers,
        Buffer {
            updated: true,
            ..buffer
        },
    );
    Ok(())
}

fn flush<S: Store>(
    registers: &mut Registers,
    image: &[u8; 65536],
    store: &mut S,
) -> Result<(), Fault>
    ensures { (c : List ℕ) → OnBlocks 57 registers.old image.now c (S.Store.means store.old) result registers.new image.now c (S.Store.means store.new) }
{
    write_out(registers, image, store)?;
    assign(registers, Buffer::default());
    Ok(())
}

// BLOCK UPDATE FLUSH, by one match: a step has one dispatch and calls through no pointer.
pub fn block_word<S: Store>(
    registers: &mut Registers,
    word: BlockWord,
    image: &mut [u8; 65536],
    cells: &mut [u16; 128],
    store: &mut S,
) -> Result<(), Fault>
    ensures did { OnBlocks (block_number word) registers.old image.old cells.old (S.Store.means store.old) result registers.new image.new cells.new (S.Store.means store.new) }
    ensures below { take 256 image.new ≡ take 256 image.old }
{
    match word {
        BlockWord::Block => block(registers, image, cells, store),
        BlockWord::Update => update(registers, store),
        BlockWord::Flush => flush(registers, image, store),
    }
}
