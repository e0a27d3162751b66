// The words that type.
ghost use Rattle.std.specs.Prelude.{◌≡◌, length};
ghost use Rattle.steps.specs.Asking.{StateAnswers};
ghost use Rattle.seldom_words.specs.Asked.{typing_asks, FromOutput};
ghost use Rattle.typing_words.specs.Numbers.{typing_number};

use definition::ranged::Registers;
use fault::Fault;
use steps::asking::ask_running;
use steps::progress::Progress;
use typing_words::output::Output;
use typing_words::typing::typing_word;
use typing_words::words::TypingWord;

fn ask_for_text(registers: &Registers, word: TypingWord) -> Result<(), Fault>
    ensures { StateAnswers (typing_asks word) registers.now result }
{
    match word {
        TypingWord::Text => ask_running(registers),
        _ => Ok(()),
    }
}

// . U. EMIT TYPE CR SPACES, and (."), which alone asks for a running word (11).
pub(crate) fn typing(
    registers: &mut Registers,
    word: TypingWord,
    image: &[u8; 65536],
    cells: &[u16; 128],
    output: &mut Output,
) -> Result<Progress, Fault>
    ensures did { FromOutput (typing_number word) registers.old image.now cells.now output.old.bytes.now output.old.typed result registers.new output.new.bytes.now output.new.typed }
    ensures size { length output.new.bytes.now ≡ length output.old.bytes.now }
    ensures same_reference { output.new.bytes.ghost_name ≡ output.old.bytes.ghost_name }
{
    ask_for_text(registers, word)?;
    typing_word(registers, word, image, cells, output)
}
