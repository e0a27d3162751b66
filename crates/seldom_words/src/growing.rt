// Words on data space that ask for no open definition (9), and LOAD, which asks that no word runs (10).
ghost use Rattle.std.specs.Prelude.{◌≡◌, ℕ, List, length, take};
ghost use Rattle.space_words.specs.Numbers.{appending_number};
ghost use Rattle.steps.specs.Does.{FromState};

use block_words::loading::load_word;
use definition::ranged::Registers;
use fault::Fault;
use space_words::allot::allot;
use space_words::growing::appending_word;
use space_words::words::AppendingWord;
use steps::asking::{ask_none_open, ask_not_running};

// , C,
pub(crate) fn appending(
    registers: &mut Registers,
    word: AppendingWord,
    image: &mut [u8; 65536],
    cells: &mut [u16; 128],
) -> Result<(), Fault>
    ensures did { (t : List ℕ) → FromState (appending_number word) registers.old image.old cells.old t result registers.new image.new cells.new t }
    ensures below { take 256 image.new ≡ take 256 image.old }
{
    ask_none_open(registers)?;
    appending_word(registers, word, image, cells)
}

// ALLOT
pub(crate) fn allotting(
    registers: &mut Registers,
    image: &mut [u8; 65536],
    cells: &[u16; 128],
) -> Result<(), Fault>
    ensures did { (t : List ℕ) → FromState 46 registers.old image.old cells.now t result registers.new image.new cells.now t }
    ensures below { take 256 image.new ≡ take 256 image.old }
{
    ask_none_open(registers)?;
    allot(registers, image, cells)
}

// LOAD
pub(crate) fn loading(registers: &mut Registers, cells: &[u16; 128]) -> Result<(), Fault>
    ensures { (i t : List ℕ) → length i ≡ 65536 → FromState 58 registers.old i cells.now t result registers.new i cells.now t }
{
    ask_not_running(registers)?;
    load_word(registers, cells)
}
