// The next word of the text, and the last one taken.
ghost use Rattle.std.specs.Prelude.{◌≡◌, ◌+◌, ◌≤◌, min, MatchOption};
ghost use Rattle.texts.specs.Texts.{NextIs, NoneLeft, TookWord, WordInside, read_to, text_in, text_length, text_start, word_in};

use super::scanning::{rest_of, separators, word_length};
use definition::places::{BUFFER, LINE};
use definition::ranged::Registers;
use definition::registers::LastWord;

// Where the text begins in the image.
pub(crate) fn text_start(registers: &Registers) -> usize
    ensures { result ≡ text_start registers.now.seat }
{
    if registers.seat.source.position.blk == 0 {
        LINE
    } else {
        BUFFER
    }
}

// How long it is.
fn text_length(registers: &Registers) -> u16
    ensures value { result ≡ text_length registers.now.seat }
    ensures limit { result ≤ 1024 }
{
    if registers.seat.source.position.blk == 0 {
        registers.seat.source.length
    } else {
        1024
    }
}

// The text.
pub(crate) fn text_of<'a>(registers: &Registers, image: &'a [u8; 65536]) -> &'a [u8]
    ensures { result.now ≡ text_in registers.now.seat image.now }
{
    let start = text_start(registers);
    let end = start + usize::from(text_length(registers));
    &image[start..end]
}

// Where the next word lies in the text. Where none is left its length is 0 and its place the text's end, which the definition keeps:
// no Option. The casts lose nothing: a text has at most 1,024 bytes.
fn next_word(registers: &Registers, image: &[u8; 65536]) -> LastWord
    ensures place { NextIs registers.now image.now result }
    ensures inside { 1 ≤ result.length → result.start + result.length ≤ text_length registers.now.seat }
{
    let text = text_of(registers, image);
    let offset = usize::from(registers.seat.source.position.offset);
    let start = offset + separators(rest_of(text, offset));
    let length = word_length(rest_of(text, start));
    LastWord {
        start: start as u16,
        length: length as u16,
    }
}

// >IN behind a word and the one byte that ends it.
fn behind_one(length: u16, word: LastWord) -> u16
    requires { (length ≤ 1024) × (word.start + word.length ≤ 1024) }
    ensures { result ≡ min length (word.start + word.length + 1) }
{
    length.min(word.start + word.length + 1)
}

// Text goes on at >IN, and this was the last word.
pub(crate) fn read_to(registers: &mut Registers, offset: u16, word: LastWord)
    requires { offset ≤ 1024 }
    ensures shared { registers.new.shared ≡ registers.old.shared }
    ensures seat { registers.new.seat ≡ read_to offset word registers.old.seat }
{
    registers.seat.source.position.offset = offset;
    registers.seat.source.word = word;
}

// Takes the next word; where none is left, nothing changes.
pub fn take_word<'a>(registers: &mut Registers, image: &'a [u8; 65536]) -> Option<&'a [u8]>
    ensures shared { registers.new.shared ≡ registers.old.shared }
    ensures took { MatchOption result (NoneLeft registers.old image.now registers.new) (λ word. TookWord registers.old image.now word.now registers.new) }
{
    let word = next_word(registers, image);
    if word.length == 0 {
        return None;
    }
    let offset = behind_one(text_length(registers), word);
    read_to(registers, offset, word);
    Some(last_word(registers, image))
}

// The bytes of the word just taken.
pub(crate) fn last_word<'a>(registers: &Registers, image: &'a [u8; 65536]) -> &'a [u8]
    requires { WordInside registers.now.seat }
    ensures { result.now ≡ word_in registers.now.seat image.now }
{
    let text = text_of(registers, image);
    let word = registers.seat.source.word;
    let start = usize::from(word.start);
    let end = start + usize::from(word.length);
    &text[start..end]
}
