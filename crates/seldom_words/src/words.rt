// Division, data space that grows, typing, blocks, names, compiling, and what has no code.
ghost use Rattle.std.specs.Prelude.{◌≡◌, ◌≢◌, length, take};
ghost use Rattle.codes.specs.Codes.{SeldomCoded};
ghost use Rattle.codes.specs.Performs.{memory, FullKeeps, Performs};
ghost use Rattle.fault.specs.Numbers.{fault_of};
ghost use Rattle.fault.specs.declared.Reason.TheVariants.{Aborted};
ghost use Rattle.steps.specs.Seats.{told_by};

use super::building::building;
use super::growing::{allotting, appending, loading};
use super::typing::typing;
use block_words::words::block_word;
use codes::code::SeldomWord;
use codes::went;
use compiling_words::words::compiling_word;
use data_words::dividing::divide_word;
use definition::ranged::Registers;
use definition::registers::Mark;
use fault::{Fault, Reason};
use inner_words::tokens::body_word;
use inner_words::vocabulary::vocabulary_word;
use naming_words::naming::naming_word;
use steps::faults::refusal;
use steps::progress::Progress;
use store::Store;
use typing_words::output::Output;

// ABORT is a fault itself.
fn abort(registers: &Registers) -> Fault
    ensures { result ≡ fault_of Aborted (told_by registers.now.seat) }
{
    refusal(registers, Reason::Aborted)
}

// Does what the word of this code and token does. EXECUTE is gone through before: its arm is never taken.
#[inline(never)]
pub fn seldom_word<S: Store>(
    registers: &mut Registers,
    word: SeldomWord,
    number: u16,
    token: u16,
    image: &mut [u8; 65536],
    cells: &mut [u16; 128],
    returns: &mut [u16; 128],
    marks: &mut [Mark; 32],
    output: &mut Output,
    store: &mut S,
) -> Result<Progress, Fault>
    requires coded { SeldomCoded number word }
    requires other { number ≢ 59 }
    ensures did { Performs number token registers.old (memory image.old cells.old returns.old marks.old output.old.bytes.now output.old.typed (S.Store.means store.old)) result registers.new (memory image.new cells.new returns.new marks.new output.new.bytes.now output.new.typed (S.Store.means store.new)) }
    ensures full { FullKeeps result cells.old cells.new }
    ensures below { take 256 image.new ≡ take 256 image.old }
    ensures size { length output.new.bytes.now ≡ length output.old.bytes.now }
    ensures same_reference { output.new.bytes.ghost_name ≡ output.old.bytes.ghost_name }
{
    match word {
        SeldomWord::Divide(word) => went(divide_word(registers, word, cells)),
        SeldomWord::Appending(word) => went(appending(registers, word, image, cells)),
        SeldomWord::Allot => went(allotting(registers, image, cells)),
        SeldomWord::Typing(word) => typing(registers, word, image, cells, output),
        SeldomWord::Block(word) => went(block_word(registers, word, image, cells, store)),
        SeldomWord::Load => went(loading(registers, cells)),
        SeldomWord::ToBody => went(body_word(registers, image, cells)),
        SeldomWord::Abort => Err(abort(registers)),
        SeldomWord::Naming(word) => went(naming_word(registers, word, image, cells)),
        SeldomWord::Compiling(word) => {
            went(compiling_word(registers, word, image, cells, returns))
        }
        SeldomWord::Control(word) => went(building(registers, word, image, marks)),
        SeldomWord::Vocabulary => went(vocabulary_word(registers, token, image)),
        SeldomWord::Execute | SeldomWord::Unknown => Err(refusal(registers, Reason::BadToken)),
    }
}
