// The registers as plain numbers, grouped by who owns them: all seats share `Shared`, and each seat has a `Seat`.
ghost use Rattle.std.specs.Prelude.{◌≡◌};
ghost use Rattle.definition.specs.Ranges.{resting};

use dictionary::registers::{Ends, Names, SearchOrder};

// What a mark stands for: an unfinished IF, BEGIN, WHILE or DO.
#[derive(Clone, Copy, PartialEq, Eq)]
pub enum Kind {
    If,
    Begin,
    While,
    Do,
}

#[derive(Clone, Copy, PartialEq, Eq)]
pub struct Mark {
    pub kind: Kind,
    pub address: u16,
}

// The block that the buffer holds, if any, and the update flag: two fields, since registers from elsewhere may have the flag and no block.
#[derive(Clone, Copy, PartialEq, Eq, Default)]
pub struct Buffer {
    pub held: Option<u16>,
    pub updated: bool,
}

// What all seats share.
#[derive(Clone, Copy, PartialEq, Eq)]
pub struct Shared {
    pub ends: Ends,
    pub names: Names,
    pub buffer: Buffer,
}

// The compiling flag and the instruction pointer IP, which is 0 where no word runs.
#[derive(Clone, Copy, PartialEq, Eq, Default)]
pub struct Flow {
    pub compiling: bool,
    pub ip: u16,
}

// How many cells, return cells and marks are in use.
#[derive(Clone, Copy, PartialEq, Eq, Default)]
pub struct Depths {
    pub cells: u16,
    pub returns: u16,
    pub marks: u16,
}

// Where text goes on: BLK, which is 0 in the line, and >IN. An open load keeps its caller's.
#[derive(Clone, Copy, PartialEq, Eq, Default)]
pub struct Position {
    pub blk: u16,
    pub offset: u16,
}

// The last word taken: its place in its text, and its length.
#[derive(Clone, Copy, PartialEq, Eq, Default)]
pub struct LastWord {
    pub start: u16,
    pub length: u16,
}

// The line's length, where text goes on, and the last word.
#[derive(Clone, Copy, PartialEq, Eq, Default)]
pub struct Source {
    pub length: u16,
    pub position: Position,
    pub word: LastWord,
}

// The open loads, the outermost first; those past `count` are free. Named fields and no array: registers are plain numbers.
#[derive(Clone, Copy, PartialEq, Eq, Default)]
pub struct Loads {
    pub count: u16,
    pub first: Position,
    pub second: Position,
    pub third: Position,
    pub fourth: Position,
    pub fifth: Position,
    pub sixth: Position,
    pub seventh: Position,
    pub eighth: Position,
}

// What a seat has of its own.
#[derive(Clone, Copy, PartialEq, Eq)]
pub struct Seat {
    pub order: SearchOrder,
    pub flow: Flow,
    pub depths: Depths,
    pub source: Source,
    pub loads: Loads,
}

impl Seat {
    // A seat with nothing on its stacks, no text and no open load.
    pub fn at_rest(order: SearchOrder, word: LastWord) -> Seat
        ensures { result ≡ resting order word }
    {
        Seat {
            order,
            flow: Flow::default(),
            depths: Depths::default(),
            source: Source {
                word,
                ..Source::default()
            },
            loads: Loads::default(),
        }
    }
}
