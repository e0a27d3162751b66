// Names: words of 1 to 31 bytes from 33 to 126, so the cast of a length loses nothing.
ghost use Rattle.std.specs.Prelude.{◌≡◌, ◌≤◌, true, length};
ghost use Rattle.definition.specs.Text.{is_name};
ghost use Rattle.std.specs.List.{list_all};
ghost use Rattle.entries.specs.Threads.{Ascii};
ghost use Rattle.texts.specs.Names.{TookName, graphic, name_of};

use super::name::Name;
use super::words::take_word;
use definition::ranged::Registers;
use fault::{Fault, Reason};
use steps::faults::refusal;

// A function, so that the count is proved here and not beside the name.
fn bytes_used(name: &Name) -> usize
    ensures { result ≡ name.now.count }
{
    usize::from(name.count)
}

impl Name {
    // Its bytes.
    pub fn text(&self) -> &[u8]
        ensures value { result.now ≡ name_of self.now }
        ensures least { 1 ≤ length result.now }
        ensures most { length result.now ≤ 31 }
        ensures ascii { Ascii result.now }
    {
        &self.bytes[..bytes_used(self)]
    }
}

fn is_graphic(byte: u8) -> bool
    ensures { result ≡ graphic byte }
{
    (33..=126).contains(&byte)
}

fn are_graphic(word: &[u8]) -> bool
    ensures { result ≡ list_all graphic word.now }
{
    word.iter().all(|byte| is_graphic(*byte))
}

// Is a word a name?
pub(crate) fn is_name(word: &[u8]) -> bool
    ensures { result ≡ is_name word.now }
{
    (1..=31).contains(&word.len()) && are_graphic(word)
}

fn copied(word: &[u8]) -> Name
    requires { (is_name word.now ≡ true) × (length word.now ≤ 31) }
    ensures { name_of result ≡ word.now }
{
    let mut bytes = [0; 31];
    bytes[..word.len()].copy_from_slice(word);
    Name {
        bytes,
        count: word.len() as u8,
    }
}

// Takes a word that must be a name.
pub fn take_name(registers: &mut Registers, image: &[u8; 65536]) -> Result<Name, Fault>
    ensures shared { registers.new.shared ≡ registers.old.shared }
    ensures took { TookName registers.old image.now result registers.new }
{
    let Some(word) = take_word(registers, image) else {
        return Err(refusal(registers, Reason::NothingFollows));
    };
    if !is_name(word) {
        return Err(refusal(registers, Reason::BadName));
    }
    Ok(copied(word))
}
