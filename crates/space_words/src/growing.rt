// Appending a cell or a byte to data space.
ghost use Rattle.std.specs.Prelude.{◌≡◌, ℕ, ◌≤◌, take};
ghost use Rattle.space_words.specs.Numbers.{appending_number};
ghost use Rattle.steps.specs.Does.{OnSpace};

use super::reaching::put;
use super::words::AppendingWord;
use definition::ranged::Registers;
use fault::Fault;
use steps::cells::{self, Data};
use steps::data_space::{ask_data_space, move_here};

// , C,
pub fn appending_word(
    registers: &mut Registers,
    word: AppendingWord,
    image: &mut [u8; 65536],
    cells: &mut [u16; 128],
) -> Result<(), Fault>
    ensures did { OnSpace (appending_number word) registers.old image.old cells.old result registers.new image.new cells.new }
    ensures below { take 256 image.new ≡ take 256 image.old }
{
    let n = word.size();
    cells::need::<Data>(registers, 1)?;
    ask_data_space(registers, n)?;
    let x = cells::cell::<Data>(registers, cells, 0);
    put(image, registers.shared.ends.here, n, x);
    move_here(registers, n);
    cells::release::<Data>(registers, cells, 1);
    Ok(())
}
