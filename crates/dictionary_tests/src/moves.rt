// The moves of a session.
ghost use Rattle.std.specs.Prelude.{◌≡◌, ◌≤◌, true, length};

use dictionary::registers::Dictionary;
use dictionary::{Header, code};
use fault::{Fault, Place, Reason};
use trimming::{can_trim, find, trim};

// The first entry behind the kernel's.
const FENCE: u16 = 1618;

pub(crate) const TOLD: Place = Place {
    blk: 3,
    start: 5,
    length: 4,
};

// What a word does to the dictionary, or a cell that is overwritten by hand.
#[derive(Clone, Copy)]
pub(crate) enum Move {
    Create(&'static str),
    Vocabulary(&'static str),
    Colon(&'static str),
    Semicolon,
    // The open entry is given up, as a fault does.
    GiveUp,
    // So many zeros at DP.
    Append(usize),
    // So many bytes of data space.
    Allot(u16),
    // A vocabulary, by its first head, is searched first.
    Seek(u16),
    Definitions,
    Forget(&'static str),
    // At an address, a cell.
    Poke(u16, u16),
}

impl Move {
    pub(crate) fn make(self, d: &mut Dictionary, image: &mut [u8; 65536]) -> Result<(), Fault> {
        match self {
            Move::Create(name) => create(d, image, name.as_bytes()),
            Move::Vocabulary(name) => vocabulary(d, image, name.as_bytes()),
            Move::Colon(name) => colon(d, image, name.as_bytes()),
            Move::Semicolon => semicolon(d, image),
            Move::GiveUp => Ok(d.give_up()),
            Move::Append(n) => d.append(image, &[0; 32768][..n.min(32768)], TOLD),
            Move::Allot(n) => allot(d, n),
            Move::Seek(vocabulary) => dictionary::vocabularies::seek(d, image, vocabulary, TOLD),
            Move::Definitions => Ok(d.definitions()),
            Move::Forget(name) => forget(d, image, name.as_bytes()),
            Move::Poke(a, x) => poke(image, a, x),
        }
    }
}

fn named(name: &[u8]) -> Result<Header<'_>, Fault>
    ensures { true ≡ true }
{
    if !(1..=31).contains(&name.len()) || !name.is_ascii() {
        return Err(Fault::new(Reason::BadName, TOLD));
    }
    Ok(Header {
        view: 0,
        flags: 0,
        name,
        code: code::CREATED,
    })
}

fn create(d: &mut Dictionary, image: &mut [u8; 65536], name: &[u8]) -> Result<(), Fault> {
    let header = named(name)?;
    d.define(image, &header, &[0, 0], TOLD)
}

fn vocabulary(d: &mut Dictionary, image: &mut [u8; 65536], name: &[u8]) -> Result<(), Fault> {
    let header = named(name)?;
    d.define_vocabulary(image, 0, header.name, TOLD)
}

fn colon(d: &mut Dictionary, image: &mut [u8; 65536], name: &[u8]) -> Result<(), Fault> {
    if d.names.opened != 0 {
        return Err(Fault::new(Reason::DefinitionOpen, TOLD));
    }
    let header = named(name)?;
    d.begin_colon(image, 0, header.name, TOLD)
}

fn semicolon(d: &mut Dictionary, image: &mut [u8; 65536]) -> Result<(), Fault> {
    if d.names.opened == 0 {
        return Err(Fault::new(Reason::NoDefinition, TOLD));
    }
    d.join_open(image);
    Ok(())
}

fn allot(d: &mut Dictionary, n: u16) -> Result<(), Fault> {
    let Some(here) = d.ends.here.checked_add(n) else {
        return Err(Fault::new(Reason::DataFull, TOLD));
    };
    d.ends.here = here;
    Ok(())
}

fn forget(d: &mut Dictionary, image: &mut [u8; 65536], name: &[u8]) -> Result<(), Fault> {
    let header = named(name)?;
    let Some(w) = find(d, image, header.name, TOLD)? else {
        return Err(Fault::new(Reason::NotFound, TOLD));
    };
    can_trim(d, image, FENCE, w, TOLD)?;
    trim(d, image, FENCE, w, TOLD)
}

fn poke(image: &mut [u8; 65536], a: u16, x: u16) -> Result<(), Fault> {
    if a == 65535 {
        return Err(Fault::new(Reason::OutOfReach, TOLD));
    }
    image::store(image, usize::from(a), x);
    Ok(())
}
