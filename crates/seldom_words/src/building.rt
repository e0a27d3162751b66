// The words of control structures, which ask for an open definition (8).
ghost use Rattle.std.specs.Prelude.{◌≡◌, take};
ghost use Rattle.seldom_words.specs.Asked.{FromMarks};
ghost use Rattle.control_words.specs.Numbers.{control_number};

use control_words::words::{ControlWord, control_word};
use definition::ranged::Registers;
use definition::registers::Mark;
use fault::Fault;
use steps::asking::ask_open;

// IF to +LOOP
pub(crate) fn building(
    registers: &mut Registers,
    word: ControlWord,
    image: &mut [u8; 65536],
    marks: &mut [Mark; 32],
) -> Result<(), Fault>
    ensures did { FromMarks (control_number word) registers.old image.old marks.old result registers.new image.new marks.new }
    ensures below { take 256 image.new ≡ take 256 image.old }
{
    ask_open(registers)?;
    control_word(registers, word, image, marks)
}
