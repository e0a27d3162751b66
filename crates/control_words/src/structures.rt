// What each word takes, appends and leaves.
ghost use Rattle.std.specs.Prelude.{◌≡◌, ◌+◌, ◌%◌, ◌≤◌, Some, None};
ghost use Rattle.control_words.specs.Structures.{jump_bytes, IsFor};
ghost use Rattle.control_words.specs.declared.structures.Leaves.TheVariants.{Nothing};

use super::words::ControlWord;
use definition::registers::{Kind, Mark};
use steps::tokens::CompiledWord;

// The marks that a word takes, by their kinds, the top first.
#[derive(Clone, Copy)]
pub(crate) enum Takes {
    Nothing,
    One(Kind),
    Two(Kind, Kind),
}

// The marks that it leaves, the top first.
#[derive(Clone, Copy)]
pub(crate) enum Leaves {
    Nothing,
    One(Mark),
    Two(Mark, Mark),
}

// A word that is compiled with the cell behind it: where to go, or 0 while that is not known.
#[derive(Clone, Copy)]
pub(crate) struct Jump {
    pub(crate) word: CompiledWord,
    pub(crate) cell: u16,
}

impl Jump {
    #[tactic(auto, using(steps::proofs::Bytes::two_cells))]
    pub(crate) fn bytes(self) -> [u8; 4]
        ensures { result ≡ jump_bytes self }
    {
        let [low, high] = self.word.token().to_le_bytes();
        let [cell_low, cell_high] = self.cell.to_le_bytes();
        [low, high, cell_low, cell_high]
    }
}

// What a word takes and appends, the cell that learns the address behind that, and what it leaves.
#[derive(Clone, Copy)]
pub(crate) struct Structure {
    pub(crate) takes: Takes,
    pub(crate) appends: Option<Jump>,
    pub(crate) learns: Option<u16>,
    pub(crate) leaves: Leaves,
}

// A jump to an address that is not known yet.
fn forward(takes: Takes, word: CompiledWord, learns: Option<u16>, leaves: Leaves) -> Structure
    ensures { result ≡ record { takes = takes; appends = Some (record { word = word; cell = 0 }); learns = learns; leaves = leaves } }
{
    Structure {
        takes,
        appends: Some(Jump { word, cell: 0 }),
        learns,
        leaves,
    }
}

// A jump back to an address.
fn backward(takes: Takes, word: CompiledWord, cell: u16, learns: Option<u16>) -> Structure
    ensures { result ≡ record { takes = takes; appends = Some (record { word = word; cell = cell }); learns = learns; leaves = Nothing } }
{
    Structure {
        takes,
        appends: Some(Jump { word, cell }),
        learns,
        leaves: Leaves::Nothing,
    }
}

// The mark of the cell that is appended behind a token at DP.
fn mark_behind(kind: Kind, dp: u16) -> Mark
    requires { dp ≤ 32768 }
    ensures { result ≡ record { kind = kind; address = dp + 2 } }
{
    Mark {
        kind,
        address: dp + 2,
    }
}

// Behind the cell at an address, to which a loop goes back. A cell that does not lie in the dictionary is refused: the sum need not fit.
fn behind(cell: u16) -> u16
    ensures { result ≡ (cell + 2) % 65536 }
{
    cell.wrapping_add(2)
}

// The structure of a word, with DP and the addresses of the two top marks.
pub(crate) fn structure_of(word: ControlWord, dp: u16, top: u16, under: u16) -> Structure
    requires { dp ≤ 32768 }
    ensures { IsFor word dp top under result }
{
    match word {
        ControlWord::If => forward(
            Takes::Nothing,
            CompiledWord::BranchIfZero,
            None,
            Leaves::One(mark_behind(Kind::If, dp)),
        ),
        ControlWord::Else => forward(
            Takes::One(Kind::If),
            CompiledWord::Branch,
            Some(top),
            Leaves::One(mark_behind(Kind::If, dp)),
        ),
        ControlWord::Then => Structure {
            takes: Takes::One(Kind::If),
            appends: None,
            learns: Some(top),
            leaves: Leaves::Nothing,
        },
        ControlWord::Begin => Structure {
            takes: Takes::Nothing,
            appends: None,
            learns: None,
            leaves: Leaves::One(Mark {
                kind: Kind::Begin,
                address: dp,
            }),
        },
        ControlWord::While => forward(
            Takes::One(Kind::Begin),
            CompiledWord::BranchIfZero,
            None,
            Leaves::Two(
                mark_behind(Kind::While, dp),
                Mark {
                    kind: Kind::Begin,
                    address: top,
                },
            ),
        ),
        ControlWord::Repeat => backward(
            Takes::Two(Kind::While, Kind::Begin),
            CompiledWord::Branch,
            under,
            Some(top),
        ),
        ControlWord::Until => backward(
            Takes::One(Kind::Begin),
            CompiledWord::BranchIfZero,
            top,
            None,
        ),
        ControlWord::Do => forward(
            Takes::Nothing,
            CompiledWord::Do,
            None,
            Leaves::One(mark_behind(Kind::Do, dp)),
        ),
        ControlWord::Loop => backward(
            Takes::One(Kind::Do),
            CompiledWord::Loop,
            behind(top),
            Some(top),
        ),
        ControlWord::PlusLoop => backward(
            Takes::One(Kind::Do),
            CompiledWord::PlusLoop,
            behind(top),
            Some(top),
        ),
    }
}
