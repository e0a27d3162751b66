// What the word of a code does.
ghost use Rattle.std.specs.Prelude.{◌≡◌, ◌≢◌, ◌+◌, ◌≤◌, length, take};
ghost use Rattle.codes.specs.Performs.{memory, FullKeeps, Performs};

use super::running::{reading, returning};
use codes::code::Code;
use codes::went;
use data_words::leaving::leaving_word;
use data_words::moving::stack_word;
use data_words::one_cell::unary_word;
use data_words::two_cells::binary_word;
use definition::ranged::Registers;
use definition::registers::Mark;
use fault::Fault;
use inner_words::entering::{colon_word, does_word};
use inner_words::tokens::{PushingWord, pushing_word};
use seldom_words::words::seldom_word;
use space_words::space::memory_word;
use steps::progress::Progress;
use store::Store;
use typing_words::output::Output;

// Does what the word of this code and token does; EXECUTE is gone through before. The words that run often come first.
pub(crate) fn perform<S: Store>(
    registers: &mut Registers,
    number: u16,
    token: u16,
    image: &mut [u8; 65536],
    cells: &mut [u16; 128],
    returns: &mut [u16; 128],
    marks: &mut [Mark; 32],
    output: &mut Output,
    store: &mut S,
) -> Result<Progress, Fault>
    requires inside { token + 2 ≤ 32768 }
    requires other { number ≢ 59 }
    ensures did { Performs number token registers.old (memory image.old cells.old returns.old marks.old output.old.bytes.now output.old.typed (S.Store.means store.old)) result registers.new (memory image.new cells.new returns.new marks.new output.new.bytes.now output.new.typed (S.Store.means store.new)) }
    ensures full { FullKeeps result cells.old cells.new }
    ensures below { take 256 image.new ≡ take 256 image.old }
    ensures size { length output.new.bytes.now ≡ length output.old.bytes.now }
    ensures same_reference { output.new.bytes.ghost_name ≡ output.old.bytes.ghost_name }
{
    match Code::from(number) {
        Code::Stack(word) => went(stack_word(registers, word, cells)),
        Code::Unary(word) => went(unary_word(registers, word, cells)),
        Code::Binary(word) => went(binary_word(registers, word, cells)),
        Code::Memory(word) => went(memory_word(registers, word, image, cells)),
        Code::Leaving(word) => went(leaving_word(registers, word, cells)),
        Code::Returns(word) => went(returning(registers, word, cells, returns)),
        Code::Inline(word) => went(reading(registers, word, image, cells, returns)),
        Code::Colon => went(colon_word(registers, token, returns)),
        Code::Created => went(pushing_word(registers, PushingWord::Created, token, image, cells)),
        Code::Constant => went(pushing_word(registers, PushingWord::Constant, token, image, cells)),
        Code::Does => went(does_word(registers, token, image, cells, returns)),
        Code::Seldom(word) => seldom_word(
            registers, word, number, token, image, cells, returns, marks, output, store,
        ),
    }
}
