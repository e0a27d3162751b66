// Faults: which question was answered by a no, and where in the text that was.
#![tactic(auto)]

ghost use Rattle.std.specs.Prelude.{◌≡◌};
ghost use Rattle.fault.specs.Numbers.{fault_of, layer_of, number_of, place_of};

use std::{error, fmt};

// The part of the machine that a question belongs to.
#[derive(Clone, Copy, PartialEq, Eq, Debug)]
pub enum Layer {
    Calls,
    Text,
    State,
    Word,
    Compiler,
    Store,
}

// The question that was answered by a no, in the order in which questions are put.
#[derive(Clone, Copy, PartialEq, Eq, Debug)]
pub enum Reason {
    WrongLength = 1,
    LineTooLong = 2,
    BadLookupName = 3,
    NothingFollows = 4,
    BadName = 5,
    BrokenLink = 6,
    NotFound = 7,
    NoDefinition = 8,
    DefinitionOpen = 9,
    WordRunning = 10,
    NoWordRunning = 11,
    StackUnderflow = 12,
    StackOverflow = 13,
    ReturnUnderflow = 14,
    ReturnOverflow = 15,
    OutOfReach = 16,
    BadQuotient = 17,
    BadBase = 18,
    BadMark = 19,
    DictionaryFull = 20,
    DataFull = 21,
    BadToken = 22,
    BelowFence = 23,
    NotCreated = 24,
    BadLoad = 25,
    NoBlock = 26,
    NotWritable = 27,
    Aborted = 28,
}

// Where the last word was taken: BLK, and the word's place and length in that text.
#[derive(Clone, Copy, PartialEq, Eq, Debug)]
pub struct Place {
    pub blk: u16,
    pub start: u16,
    pub length: u16,
}

// A refusal: its reason, which gives it a number and a layer, and the place that it is told.
#[derive(Clone, Copy, PartialEq, Eq, Debug)]
pub struct Fault {
    pub reason: Reason,
    pub place: Place,
}

impl Place {
    // Before a line's first word, and where there is no machine.
    pub fn nowhere() -> Place
        ensures { result ≡ place_of 0 0 0 }
    {
        Place {
            blk: 0,
            start: 0,
            length: 0,
        }
    }
}

impl Reason {
    fn number(&self) -> u8
        ensures { result ≡ number_of self.now }
    {
        *self as u8
    }

    fn layer(&self) -> Layer
        ensures { result ≡ layer_of (number_of self.now) }
    {
        // By number, not by reason: each layer is a range of the numbers, as the definition has it.
        match self.number() {
            1..=3 => Layer::Calls,
            4..=7 => Layer::Text,
            8..=11 => Layer::State,
            19..=25 => Layer::Compiler,
            26..=27 => Layer::Store,
            _ => Layer::Word,
        }
    }
}

impl Fault {
    pub fn new(reason: Reason, place: Place) -> Fault
        ensures { result ≡ fault_of reason place }
    {
        Fault { reason, place }
    }

    pub fn number(&self) -> u8
        ensures { result ≡ number_of self.now.reason }
    {
        self.reason.number()
    }

    pub fn layer(&self) -> Layer
        ensures { result ≡ layer_of (number_of self.now.reason) }
    {
        self.reason.layer()
    }
}

// Display is written out: the library needs no crate but the standard one.
impl fmt::Display for Layer {
    fn fmt<W: fmt::Write>(&self, f: &mut fmt::Formatter<W>) -> fmt::Result {
        write!(f, "{self:?}")
    }
}

impl fmt::Display for Reason {
    fn fmt<W: fmt::Write>(&self, f: &mut fmt::Formatter<W>) -> fmt::Result {
        f.write_str(match self {
            Reason::WrongLength => "the lent memory or the card has not the length it must have",
            Reason::LineTooLong => "the line has more than 128 bytes",
            Reason::BadLookupName => "the name looked up is not 1 to 31 printing characters",
            Reason::NothingFollows => "a name, a closing bracket or a closing quote is missing",
            Reason::BadName => "the word is not a name of 1 to 31 printing characters",
            Reason::BrokenLink => "a link of the dictionary is out of order",
            Reason::NotFound => "the word is not in the dictionary and is no number",
            Reason::NoDefinition => "no definition is open",
            Reason::DefinitionOpen => "a definition is still open",
            Reason::WordRunning => "not allowed inside a running word",
            Reason::NoWordRunning => "only allowed inside a running word",
            Reason::StackUnderflow => "too few cells on the data stack",
            Reason::StackOverflow => "the data stack is full",
            Reason::ReturnUnderflow => "too few cells on the return stack",
            Reason::ReturnOverflow => "the return stack is full",
            Reason::OutOfReach => "the address is out of reach",
            Reason::BadQuotient => "the divisor is 0 or the quotient does not fit a cell",
            Reason::BadBase => "BASE is not from 2 to 36",
            Reason::BadMark => "the control structure does not match",
            Reason::DictionaryFull => "the dictionary is full",
            Reason::DataFull => "data space does not allow it",
            Reason::BadToken => "not the token of a word that can do this",
            Reason::BelowFence => "a kernel word cannot be forgotten",
            Reason::NotCreated => "the newest word was not made by CREATE",
            Reason::BadLoad => "block 0 cannot be loaded, nor can a ninth load be opened",
            Reason::NoBlock => "the card has no such block",
            Reason::NotWritable => "the card is not writable",
            Reason::Aborted => "ABORT",
        })
    }
}

// As `fault 26 (Store): the card has no such block, at BLK 3, place 5, length 4`.
impl fmt::Display for Fault {
    fn fmt<W: fmt::Write>(&self, f: &mut fmt::Formatter<W>) -> fmt::Result {
        write!(
            f,
            "fault {} ({}): {}, {}",
            self.number(),
            self.layer(),
            self.reason,
            self.place
        )
    }
}

impl error::Error for Fault {}

impl fmt::Display for Place {
    fn fmt<W: fmt::Write>(&self, f: &mut fmt::Formatter<W>) -> fmt::Result {
        // A place is plain numbers, as registers tell it: no word has length 0.
        if self.length == 0 {
            return f.write_str("before any word");
        }
        write!(
            f,
            "at BLK {}, place {}, length {}",
            self.blk, self.start, self.length
        )
    }
}
