ghost use Rattle.std.specs.Prelude.{◌≡◌, ◌*◌, true, false, ◌++◌, length, IfOk, MatchOption, MatchResult, OnOk};
ghost use Rattle.fault.specs.Numbers.{fault_of, place_of};
ghost use Rattle.fault.specs.declared.Reason.TheVariants.{WrongLength};
ghost use Rattle.store.specs.Cards.{read_only_card};
ghost use Rattle.store.specs.Texts.{LinesInBlocks, all_fit, blocks_for, is_text_card, laid_out, lines_of, padded, text_card};
ghost use Rattle.store.specs.Lines.{LinesAreTheText};
ghost use Rattle.store.specs.Soundness.{card_sound};

use super::Store;
use super::blocks::{count_blocks, read_block};
use super::lines::Lines;
use fault::{Fault, Place, Reason};
use std::alloc::{AllocError, Global};

// How many lines a text has.
fn count_lines(text: &[u8]) -> usize
    ensures { result ≡ length (lines_of text.now) }
{
    Lines { rest: text }.count()
}

// Is each line at most 64 bytes?
fn lines_fit(text: &[u8]) -> bool
    ensures { result ≡ all_fit (lines_of text.now) }
{
    Lines { rest: text }.all(|line| line.len() <= 64)
}

// How many blocks a text takes, or nothing where a line is above 64 bytes or the blocks are above 65,535.
fn card_blocks(text: &[u8]) -> Option<u16>
    ensures { MatchOption result (is_text_card text.now ≡ false) (λ n. (is_text_card text.now ≡ true) × (n ≡ blocks_for (length (lines_of text.now)))) }
{
    if !lines_fit(text) {
        return None;
    }
    u16::try_from(count_lines(text).div_ceil(16)).ok()
}

// Adds blanks up to so many bytes.
fn pad(bytes: &mut Vec<u8>, full: usize) -> Result<(), AllocError>
    ensures { OnOk result (bytes.new.items ≡ padded full bytes.old.items) }
{
    bytes.resize(bytes.len().max(full), b' ')
}

// Adds a line, padded to 64 bytes.
fn add_line(bytes: &mut Vec<u8>, line: &[u8]) -> Result<(), AllocError>
    ensures { OnOk result (bytes.new.items ≡ bytes.old.items ++ padded 64 line.now) }
{
    let full = bytes.len() + 64;
    bytes.extend_from_slice(line)?;
    pad(bytes, full)
}

// The lines one behind the other, 64 bytes each.
fn laid_out(heap: Global, text: &[u8]) -> Result<Vec<u8>, AllocError>
    ensures { IfOk result (λ v. v.items ≡ laid_out (lines_of text.now)) }
{
    let mut bytes = Vec::new(heap);
    for line in (Lines { rest: text }) {
        add_line(&mut bytes, line)?;
    }
    Ok(bytes)
}

// The lines laid out and padded to so many blocks.
fn filled(heap: Global, text: &[u8], blocks: u16) -> Result<Vec<u8>, AllocError>
    ensures { IfOk result (λ v. v.items ≡ padded (1024 * blocks) (laid_out (lines_of text.now))) }
{
    let mut bytes = laid_out(heap, text)?;
    pad(&mut bytes, 1024 * usize::from(blocks))?;
    Ok(bytes)
}

// The bytes of a text's blocks; none where it is no card.
fn card_bytes(heap: Global, text: &[u8]) -> Result<Vec<u8>, AllocError>
    ensures { IfOk result (λ v. read_only_card v.items ≡ text_card text.now) }
{
    match card_blocks(text) {
        None => Ok(Vec::new(heap)),
        Some(blocks) => filled(heap, text, blocks),
    }
}

// A card over lines of text, not writable; one that the query refuses has no blocks.
#[derive(Drop)]
pub struct TextCard {
    bytes: Vec<u8>,
}

impl TextCard {
    // Are the lines at most 64 bytes, in at most 65,535 blocks? Line k of block b is then line 16 b + k.
    pub fn query(text: &[u8]) -> Result<(), Fault>
        ensures answer { MatchResult result (λ _. is_text_card text.now ≡ true) (λ f. (is_text_card text.now ≡ false) × (f ≡ fault_of WrongLength (place_of 0 0 0))) }
        ensures lines { LinesAreTheText text.now }
        ensures blocks { LinesInBlocks text.now }
    {
        match card_blocks(text) {
            Some(_) => Ok(()),
            None => Err(Fault::new(Reason::WrongLength, Place::nowhere())),
        }
    }

    // The card over this text, laid out once; it fails only for want of memory.
    pub fn new(heap: Global, text: &[u8]) -> Result<TextCard, AllocError>
        ensures { IfOk result (λ c. read_only_card c.bytes.items ≡ text_card text.now) }
    {
        let bytes = card_bytes(heap, text)?;
        Ok(TextCard { bytes })
    }
}

impl Store for TextCard {
    ghost means = { λ c. read_only_card c.bytes.items };

    ghost sound = { λ c. card_sound false c.bytes.items };

    fn count(&self) -> u16 {
        count_blocks(self.bytes.len())
    }

    fn writable(&self) -> bool {
        false
    }

    fn read(&self, n: u16, into: &mut [u8; 1024], at: Place) -> Result<(), Fault> {
        read_block(self.bytes.as_slice(), n, into, at)
    }

    fn write(&mut self, n: u16, _from: &[u8; 1024], at: Place) -> Result<(), Fault> {
        if n >= count_blocks(self.bytes.len()) {
            return Err(Fault::new(Reason::NoBlock, at));
        }
        Err(Fault::new(Reason::NotWritable, at))
    }
}
