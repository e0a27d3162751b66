// A step while no word runs.
ghost use Rattle.std.specs.Prelude.{◌≡◌, ℕ, List, take};
ghost use Rattle.definition.specs.Step.{needs_block};
ghost use Rattle.definition.specs.declared.registers.Mark.{Mark};
ghost use Rattle.stepping.specs.Steps.{ReadsText};
ghost use Rattle.steps.specs.Does.{seen};
ghost use Rattle.store.specs.Meaning.{Meaning};

use super::next::Next;
use super::word::interpret;
use block_words::bringing::{bring, holds};
use block_words::loading::end_load;
use definition::ranged::Registers;
use fault::Fault;
use store::Store;
use texts::words::take_word;

// Is the text's block to be brought in first?
fn lacks_block(registers: &Registers) -> bool
    ensures { (i c t : List ℕ) (k : List Mark) (s : Meaning) → result ≡ needs_block (seen registers.now i c t k s) }
{
    let blk = registers.seat.source.position.blk;
    blk != 0 && !holds(registers, blk)
}

// The text's block is brought in; where no word is left a load or the line ends; else a word is taken and interpreted.
pub(crate) fn read_text<S: Store>(
    registers: &mut Registers,
    image: &mut [u8; 65536],
    cells: &mut [u16; 128],
    store: &mut S,
) -> Result<Next, Fault>
    ensures did { ReadsText registers.old image.old cells.old (S.Store.means store.old) result registers.new image.new cells.new (S.Store.means store.new) }
    ensures below { take 256 image.new ≡ take 256 image.old }
{
    if lacks_block(registers) {
        bring(registers, image, store, registers.seat.source.position.blk)?;
        return Ok(Next::Went);
    }
    let Some(_) = take_word(registers, image) else {
        return Ok(if end_load(registers) {
            Next::Went
        } else {
            Next::Finished
        });
    };
    interpret(registers, image, cells)
}
