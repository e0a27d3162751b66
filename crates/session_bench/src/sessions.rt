// Sessions: what is done after boot with a card of 16 blocks, and what must come of it.
use line_bench::bench::Bench;
use line_bench::end::End;
use std::alloc::{AllocError, Global};
use store::{MemoryCard, Store, TextCard};
use switched_card::Switched;

// A line typed after boot, how it ends, in how many steps, what it types, and what is left.
pub type Row = (&'static str, End, u32, &'static str, &'static str);

// One move of a session.
#[derive(Clone, Copy)]
pub enum Move {
    // A line is typed and run: how it ends, in how many steps, and what it types.
    Types(&'static str, End, u32, &'static str),
    // A line is given, and not yet run.
    Gives(&'static str),
    // A run with a budget of steps, and space for so many bytes.
    Runs(u32, usize, End, u32, &'static str),
    // The card is not writable from now on.
    Locks,
    // A byte of the image is changed from outside.
    Pokes(u16, u8),
}

// Text in a block from an offset on. A block with text is blank elsewhere, and any other is zeros.
pub type BlockText = (usize, usize, &'static str);

pub struct Session {
    pub blocks: &'static [BlockText],
    pub moves: &'static [Move],
    pub left: &'static str,
}

// A budget and a space that no line here uses up.
const BUDGET: u32 = 1_000_000;

const SPACE: usize = 512;

// Which part of a run fails: its end, its steps, or what it types.
fn failing_run<S: Store>(
    bench: &mut Bench,
    card: &mut S,
    budget: u32,
    space: usize,
    (end, steps, typed): (End, u32, &str),
) -> Option<&'static str> {
    let (found, taken) = bench.run(card, budget, space);
    if found != end {
        Some("end")
    } else if taken != steps {
        Some("steps")
    } else if !bench.has_typed(typed) {
        Some("typed bytes")
    } else {
        None
    }
}

// Which part of a move fails.
fn failing_move<S: Store>(
    bench: &mut Bench,
    card: &mut Switched<S>,
    made: Move,
) -> Option<&'static str> {
    match made {
        Move::Types(line, end, steps, typed) => {
            if bench.put_line(line).is_none() {
                return Some("length");
            }
            return failing_run(bench, card, BUDGET, SPACE, (end, steps, typed));
        }
        Move::Gives(line) => {
            if bench.put_line(line).is_none() {
                return Some("length");
            }
        }
        Move::Runs(budget, space, end, steps, typed) => {
            return failing_run(bench, card, budget, space, (end, steps, typed));
        }
        Move::Locks => card.set_locked(true),
        Move::Pokes(address, byte) => bench.poke(address, byte),
    }
    None
}

// The line that a move gives, if any.
fn line_of(made: Move) -> Option<&'static str> {
    match made {
        Move::Types(line, ..) | Move::Gives(line) => Some(line),
        Move::Runs(..) | Move::Locks | Move::Pokes(..) => None,
    }
}

// What fails in a session: the line, and which part of it, or of what is left behind it.
pub type Failing = (&'static str, &'static str);

fn failing<S: Store + Drop>(card: S, moves: &[Move], left: &str) -> Option<Failing> {
    let mut bench = Bench::booted();
    let mut card = Switched::new(card);
    let mut line = "";
    for made in moves {
        line = line_of(*made).unwrap_or(line);
        if let Some(part) = failing_move(&mut bench, &mut card, *made) {
            return Some((line, part));
        }
    }
    if bench.is_left(left) {
        None
    } else {
        Some((line, "machine that is left"))
    }
}

// Writes a text into the bytes of a card; a block is blank where its first text begins at 0.
fn write_text(bytes: &mut [u8; 16384], (block, offset, text): BlockText) -> Option<()> {
    let block = bytes.get_mut(block.checked_mul(1024)?..)?.get_mut(..1024)?;
    if offset == 0 {
        block.fill(b' ');
    }
    let place = block.get_mut(offset..)?.get_mut(..text.len())?;
    place.copy_from_slice(text.as_bytes());
    Some(())
}

fn write_texts(bytes: &mut [u8; 16384], blocks: &[BlockText]) -> Option<()> {
    for text in blocks {
        write_text(bytes, *text)?;
    }
    Some(())
}

// On a memory card with these texts.
fn failing_on(blocks: &[BlockText], moves: &[Move], left: &str) -> Option<Failing> {
    let mut bytes = [0; 16384];
    if write_texts(&mut bytes, blocks).is_none() {
        return Some(("", "blocks"));
    }
    failing(MemoryCard::new(&mut bytes), moves, left)
}

impl Session {
    pub fn failing(&self) -> Option<Failing> {
        failing_on(self.blocks, self.moves, self.left)
    }
}

pub fn failing_row(&(line, end, steps, typed, left): &Row) -> Option<Failing> {
    failing_on(&[], &[Move::Types(line, end, steps, typed)], left)
}

// The same as a session, on a card over lines of text.
pub fn failing_on_text(
    heap: Global,
    text: &[u8],
    moves: &[Move],
    left: &str,
) -> Result<Option<Failing>, AllocError> {
    let card = TextCard::new(heap, text)?;
    Ok(failing(card, moves, left))
}
