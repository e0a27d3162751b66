// Words on the return stack and words with a cell of their own: they ask for a running word (11).
ghost use Rattle.std.specs.Prelude.{ℕ, List};
ghost use Rattle.inner_words.specs.Numbers.{inline_number, returns_number};
ghost use Rattle.steps.specs.Does.{FromState};

use definition::ranged::Registers;
use fault::Fault;
use inner_words::inline::inline_word;
use inner_words::returning::returns_word;
use inner_words::words::{InlineWord, ReturnsWord};
use steps::asking::ask_running;

// EXIT >R R> R@ I J LEAVE
pub(crate) fn returning(
    registers: &mut Registers,
    word: ReturnsWord,
    cells: &mut [u16; 128],
    returns: &mut [u16; 128],
) -> Result<(), Fault>
    ensures { (i : List ℕ) → FromState (returns_number word) registers.old i cells.old returns.old result registers.new i cells.new returns.new }
{
    ask_running(registers)?;
    returns_word(registers, word, cells, returns)
}

// (LIT) BRANCH ?BRANCH (DO) (LOOP) (+LOOP)
pub(crate) fn reading(
    registers: &mut Registers,
    word: InlineWord,
    image: &[u8; 65536],
    cells: &mut [u16; 128],
    returns: &mut [u16; 128],
) -> Result<(), Fault>
    ensures { FromState (inline_number word) registers.old image.now cells.old returns.old result registers.new image.now cells.new returns.new }
{
    ask_running(registers)?;
    inline_word(registers, word, image, cells, returns)
}
