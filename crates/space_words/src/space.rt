// Fetching and storing: n counts bytes, 1 or 2, as the definition's `fetches` and `stores` do.
ghost use Rattle.std.specs.Prelude.{◌≡◌, ℕ, ◌+◌, ◌<◌, ◌≤◌, if◌then◌else◌, nat_eq, take};
ghost use Rattle.definition.specs.Kernel.{fetches, stores};
ghost use Rattle.image.specs.Cells.{at, cell, cell_at};
ghost use Rattle.image.specs.Writes.{overwritten};
ghost use Rattle.space_words.specs.Acting.{Acts};
ghost use Rattle.space_words.specs.Numbers.{memory_number};
ghost use Rattle.steps.specs.Does.{OnSpace};

use super::reaching::{put, reach};
use super::words::MemoryWord;
use definition::places::BASE;
use definition::ranged::Registers;
use fault::Fault;
use steps::cells::{self, Data};

// What is at an address: a byte where n is 1, and else a cell.
fn fetched(image: &[u8; 65536], address: u16, n: u16) -> u16
    requires { (0 < n) × (n ≤ 2) × (address + n ≤ 65536) }
    ensures { result ≡ (if nat_eq n 1 then at image.now address else cell_at image.now address) }
{
    let address = usize::from(address);
    if n == 1 {
        u16::from(image[address])
    } else {
        image::fetch(image, address)
    }
}

// @ and C@ fetch n bytes.
fn fetch(
    registers: &mut Registers,
    n: u16,
    image: &[u8; 65536],
    cells: &mut [u16; 128],
) -> Result<(), Fault>
    requires { (0 < n) × (n ≤ 2) }
    ensures { (v : ℕ) → Acts v (fetches n) → OnSpace v registers.old image.now cells.old result registers.new image.now cells.new }
{
    cells::need::<Data>(registers, 1)?;
    let address = cells::cell::<Data>(registers, cells, 0);
    reach(registers, address, n)?;
    cells::replace(registers, cells, 1, fetched(image, address, n));
    Ok(())
}

// ! and C! store the n low bytes of a cell.
fn store(
    registers: &mut Registers,
    n: u16,
    image: &mut [u8; 65536],
    cells: &mut [u16; 128],
) -> Result<(), Fault>
    requires { n ≤ 2 }
    ensures did { (v : ℕ) → Acts v (stores n) → OnSpace v registers.old image.old cells.old result registers.new image.new cells.new }
    ensures below { take 256 image.new ≡ take 256 image.old }
{
    cells::need::<Data>(registers, 2)?;
    let address = cells::cell::<Data>(registers, cells, 0);
    reach(registers, address, n)?;
    let x = cells::cell::<Data>(registers, cells, 1);
    put(image, address, n, x);
    cells::release::<Data>(registers, cells, 2);
    Ok(())
}

fn add_to(
    registers: &mut Registers,
    image: &mut [u8; 65536],
    cells: &mut [u16; 128],
) -> Result<(), Fault>
    ensures did { OnSpace 36 registers.old image.old cells.old result registers.new image.new cells.new }
    ensures below { take 256 image.new ≡ take 256 image.old }
{
    cells::need::<Data>(registers, 2)?;
    let address = cells::cell::<Data>(registers, cells, 0);
    reach(registers, address, 2)?;
    let x = cells::cell::<Data>(registers, cells, 1);
    let old = image::fetch(image, usize::from(address));
    image::store(image, usize::from(address), old.wrapping_add(x));
    cells::release::<Data>(registers, cells, 2);
    Ok(())
}

fn copy(
    registers: &mut Registers,
    image: &mut [u8; 65536],
    cells: &mut [u16; 128],
) -> Result<(), Fault>
    ensures did { OnSpace 39 registers.old image.old cells.old result registers.new image.new cells.new }
    ensures below { take 256 image.new ≡ take 256 image.old }
{
    cells::need::<Data>(registers, 3)?;
    let n = cells::cell::<Data>(registers, cells, 0);
    let to = cells::cell::<Data>(registers, cells, 1);
    let from = cells::cell::<Data>(registers, cells, 2);
    reach(registers, from, n)?;
    reach(registers, to, n)?;
    image::move_up(image, usize::from(from), usize::from(to), usize::from(n));
    cells::release::<Data>(registers, cells, 3);
    Ok(())
}

fn fill(
    registers: &mut Registers,
    image: &mut [u8; 65536],
    cells: &mut [u16; 128],
) -> Result<(), Fault>
    ensures did { OnSpace 40 registers.old image.old cells.old result registers.new image.new cells.new }
    ensures below { take 256 image.new ≡ take 256 image.old }
{
    cells::need::<Data>(registers, 3)?;
    let [x, _] = cells::cell::<Data>(registers, cells, 0).to_le_bytes();
    let n = cells::cell::<Data>(registers, cells, 1);
    let address = cells::cell::<Data>(registers, cells, 2);
    reach(registers, address, n)?;
    image::fill(image, usize::from(address), usize::from(n), x);
    cells::release::<Data>(registers, cells, 3);
    Ok(())
}

// DECIMAL and HEX set BASE, the cell at 32,768.
fn set_base(image: &mut [u8; 65536], base: u16)
    ensures { image.new ≡ overwritten 32768 (cell base) image.old }
{
    image::store(image, BASE, base);
}

// @ ! +! C@ C! CMOVE FILL DECIMAL HEX
pub fn memory_word(
    registers: &mut Registers,
    word: MemoryWord,
    image: &mut [u8; 65536],
    cells: &mut [u16; 128],
) -> Result<(), Fault>
    ensures did { OnSpace (memory_number word) registers.old image.old cells.old result registers.new image.new cells.new }
    ensures below { take 256 image.new ≡ take 256 image.old }
{
    // One dispatch per step: a match on the word, and no table of functions.
    match word {
        MemoryWord::Fetch => fetch(registers, 2, image, cells),
        MemoryWord::Store => store(registers, 2, image, cells),
        MemoryWord::PlusStore => add_to(registers, image, cells),
        MemoryWord::CFetch => fetch(registers, 1, image, cells),
        MemoryWord::CStore => store(registers, 1, image, cells),
        MemoryWord::CMove => copy(registers, image, cells),
        MemoryWord::Fill => fill(registers, image, cells),
        MemoryWord::Decimal => {
            set_base(image, 10);
            Ok(())
        }
        MemoryWord::Hex => {
            set_base(image, 16);
            Ok(())
        }
    }
}
