// The words that make control structures.
ghost use Rattle.std.specs.Prelude.{◌≡◌, take};
ghost use Rattle.control_words.specs.Numbers.{control_number};
ghost use Rattle.steps.specs.Does.{OnMarks};

use super::building::build;
use super::marks::mark_address;
use super::structures::structure_of;
use definition::ranged::Registers;
use definition::registers::Mark;
use fault::Fault;

#[derive(Clone, Copy)]
pub enum ControlWord {
    If,
    Else,
    Then,
    Begin,
    While,
    Repeat,
    Until,
    Do,
    Loop,
    PlusLoop,
}

// Builds the structure of a word, from DP and the two top marks on.
pub fn control_word(
    registers: &mut Registers,
    word: ControlWord,
    image: &mut [u8; 65536],
    marks: &mut [Mark; 32],
) -> Result<(), Fault>
    ensures did { OnMarks (control_number word) registers.old image.old marks.old result registers.new image.new marks.new }
    ensures below { take 256 image.new ≡ take 256 image.old }
{
    let top = mark_address(registers, marks, 0);
    let under = mark_address(registers, marks, 1);
    let structure = structure_of(word, registers.shared.ends.dp, top, under);
    build(registers, image, marks, structure)
}
