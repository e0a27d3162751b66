// The words that put a register or an address on the stack.
ghost use Rattle.std.specs.Prelude.{◌≡◌};
ghost use Rattle.data_words.specs.Numbers.{leaving_number};
ghost use Rattle.data_words.specs.Tables.{left_by};
ghost use Rattle.steps.specs.Does.{OnCells};

use super::words::LeavingWord;
use definition::ranged::Registers;
use fault::Fault;
use steps::cells::{self, Data};

fn left_by(registers: &Registers, word: LeavingWord) -> u16
    ensures { result ≡ left_by word registers.now.seat.depths.cells registers.now.shared.ends.here }
{
    // One dispatch per step: a match on the word, and no table of functions.
    match word {
        LeavingWord::Depth => registers.seat.depths.cells,
        LeavingWord::Base => 32768,
        LeavingWord::Pad => 32784,
        LeavingWord::Here => registers.shared.ends.here,
    }
}

// DEPTH BASE PAD HERE
pub fn leaving_word(
    registers: &mut Registers,
    word: LeavingWord,
    cells: &mut [u16; 128],
) -> Result<(), Fault>
    ensures { OnCells (leaving_number word) registers.old cells.old result registers.new cells.new }
{
    let x = left_by(registers, word);
    cells::leave(registers, cells, x)
}
