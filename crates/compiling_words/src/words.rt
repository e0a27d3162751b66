// The words that compile.
ghost use Rattle.std.specs.Prelude.{◌≡◌, ℕ, List, [], ◌∷◌, take, Ok};
ghost use Rattle.steps.specs.Asking.{StateAnswers};
ghost use Rattle.compiling_words.specs.Acting.{OnState};
ghost use Rattle.compiling_words.specs.Numbers.{asks_of, compiling_number, switch_number};
ghost use Rattle.definition.specs.Kernel.{has_open, ip_set, none_open};
ghost use Rattle.steps.specs.Does.{FromState};

use super::changes::{choose_current, end_definition, give_code, mark_newest};
use super::compiled::{compile_does, compile_literal, compile_next};
use super::flow::set_compiling;
use definition::ranged::Registers;
use fault::Fault;
use steps::asking::{ask_none_open, ask_open, ask_running};

#[derive(Clone, Copy)]
pub enum CompilingWord {
    Semicolon,
    Definitions,
    Immediate,
    LeftBracket,
    RightBracket,
    Literal,
    Compile,
    Does,
    SemicolonCode,
}

// Is a definition open, and does a word run?
fn ask_open_and_running(registers: &Registers) -> Result<(), Fault>
    ensures { StateAnswers (has_open ∷ ip_set ∷ []) registers.now result }
{
    ask_open(registers)?;
    ask_running(registers)
}

// Is none open, and does a word run?
fn ask_shut_and_running(registers: &Registers) -> Result<(), Fault>
    ensures { StateAnswers (none_open ∷ ip_set ∷ []) registers.now result }
{
    ask_none_open(registers)?;
    ask_running(registers)
}

// What each asks of the state.
fn ask_state(registers: &Registers, word: CompilingWord) -> Result<(), Fault>
    ensures { StateAnswers (asks_of word) registers.now result }
{
    match word {
        CompilingWord::Semicolon
        | CompilingWord::LeftBracket
        | CompilingWord::RightBracket
        | CompilingWord::Literal
        | CompilingWord::Does => ask_open(registers),
        CompilingWord::Definitions | CompilingWord::Immediate => ask_none_open(registers),
        CompilingWord::Compile => ask_open_and_running(registers),
        CompilingWord::SemicolonCode => ask_shut_and_running(registers),
    }
}

// `[` and `]`
fn switch(registers: &mut Registers, compiling: bool)
    ensures { (i c t : List ℕ) → OnState (switch_number compiling) registers.old i c t (Ok tt) registers.new i }
{
    set_compiling(registers, compiling);
}

// What each does then. A word that ends a definition found one open.
fn act(
    registers: &mut Registers,
    word: CompilingWord,
    image: &mut [u8; 65536],
    cells: &[u16; 128],
    returns: &[u16; 128],
) -> Result<(), Fault>
    requires { StateAnswers (asks_of word) registers.old (Ok tt) }
    ensures did { OnState (compiling_number word) registers.old image.old cells.now returns.now result registers.new image.new }
    ensures below { take 256 image.new ≡ take 256 image.old }
{
    match word {
        CompilingWord::Semicolon => end_definition(registers, image)?,
        CompilingWord::Definitions => choose_current(registers),
        CompilingWord::Immediate => mark_newest(registers, image),
        CompilingWord::LeftBracket => switch(registers, false),
        CompilingWord::RightBracket => switch(registers, true),
        CompilingWord::Literal => compile_literal(registers, image, cells)?,
        CompilingWord::Compile => compile_next(registers, image)?,
        CompilingWord::Does => compile_does(registers, image)?,
        CompilingWord::SemicolonCode => give_code(registers, image, returns)?,
    }
    Ok(())
}

// ; DEFINITIONS IMMEDIATE [ ] LITERAL COMPILE DOES> (;CODE)
pub fn compiling_word(
    registers: &mut Registers,
    word: CompilingWord,
    image: &mut [u8; 65536],
    cells: &[u16; 128],
    returns: &[u16; 128],
) -> Result<(), Fault>
    ensures did { FromState (compiling_number word) registers.old image.old cells.now returns.now result registers.new image.new cells.now returns.now }
    ensures below { take 256 image.new ≡ take 256 image.old }
{
    ask_state(registers, word)?;
    act(registers, word, image, cells, returns)
}
