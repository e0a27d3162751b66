// ' ( : CREATE VARIABLE CONSTANT VOCABULARY FORGET ['] [COMPILE] ."
ghost use Rattle.std.specs.Prelude.{◌≡◌, take};
ghost use Rattle.naming_words.specs.Numbers.{naming_number};
ghost use Rattle.steps.specs.Does.{FromText};

use super::forgetting::forget;
use super::quoting::dot_quote;
use super::ticking::{bracket_compile, bracket_tick, comment, tick};
use super::words::NamingWord;
use defining_words::defining::defining_word;
use definition::ranged::Registers;
use fault::Fault;

pub fn naming_word(
    registers: &mut Registers,
    word: NamingWord,
    image: &mut [u8; 65536],
    cells: &mut [u16; 128],
) -> Result<(), Fault>
    ensures did { FromText (naming_number word) registers.old image.old cells.old result registers.new image.new cells.new }
    ensures below { take 256 image.new ≡ take 256 image.old }
{
    // One dispatch per step: a match on the word, and no table of functions.
    match word {
        NamingWord::Tick => tick(registers, image, cells),
        NamingWord::Paren => comment(registers, image),
        NamingWord::Defining(word) => defining_word(registers, word, image, cells),
        NamingWord::Forget => forget(registers, image),
        NamingWord::BracketTick => bracket_tick(registers, image),
        NamingWord::BracketCompile => bracket_compile(registers, image),
        NamingWord::DotQuote => dot_quote(registers, image),
    }
}
