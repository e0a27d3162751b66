// The kind of the word just taken.
ghost use Rattle.std.specs.Prelude.{◌≡◌, ◌+◌, ◌≤◌};
ghost use Rattle.entries.specs.Entries.{is_immediate, token_of};
ghost use Rattle.texts.specs.Finding.{Interpreting, KindIs};
ghost use Rattle.texts.specs.Kinds.{kind_at};
ghost use Rattle.image.specs.Views.{low_of};
ghost use Rattle.texts.specs.Texts.{WordInside};

use super::names::is_name;
use super::searching::search;
use super::word::Word;
use super::words::last_word;
use definition::ranged::Registers;
use entries::Entries;
use fault::{Fault, Reason};
use numbers::read_number;
use steps::base::base;
use steps::faults::refusal;

// The word of an entry.
fn word_at(registers: &Registers, image: &[u8; 65536], entry: u16) -> Word
    requires { (258 ≤ entry) × (entry + 7 ≤ registers.now.shared.ends.dp) }
    ensures { result ≡ kind_at (low_of registers.now.shared.ends.dp image.now) entry }
{
    let entries = Entries::new(image, registers.shared.ends.dp);
    let token = entries.token_of(entry);
    if entries.is_immediate(entry) {
        Word::Immediate(token)
    } else {
        Word::Plain(token)
    }
}

// What the word just taken is: is it a name (5), is each link walked in order (6), is it found, or a number (7)?
pub fn word_of(registers: &Registers, image: &[u8; 65536]) -> Result<Word, Fault>
    requires { WordInside registers.now.seat }
    ensures kind { KindIs registers.now image.now result }
    ensures whole { Interpreting }
{
    let word = last_word(registers, image);
    if !is_name(word) {
        return Err(refusal(registers, Reason::BadName));
    }
    let found = search(registers, image, word)?;
    match found {
        Some(entry) => Ok(word_at(registers, image, entry)),
        None => match read_number(base(image), word) {
            Some(n) => Ok(Word::Number(n)),
            None => Err(refusal(registers, Reason::NotFound)),
        },
    }
}
