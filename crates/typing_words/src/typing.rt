// Typing numbers, bytes and blanks.
ghost use Rattle.std.specs.Prelude.{◌≡◌, ◌+◌, ◌%◌, ◌≤◌, true, false, [], ◌∷◌, ◌++◌, length, replicate, take, slice_index};
ghost use Rattle.fault.specs.declared.Reason.TheVariants.{BadBase, BadToken};
ghost use Rattle.image.specs.Cells.{cell_at};
ghost use Rattle.numbers.specs.Text.{is_base};
ghost use Rattle.steps.specs.Does.{OnOutput};
ghost use Rattle.steps.specs.Inside.{inside};
ghost use Rattle.steps.specs.Seats.{IsAnswered, with_pointer};
ghost use Rattle.typing_words.specs.Numbers.{counted, number_text, number_word, typing_number};
ghost use Rattle.typing_words.specs.Output.{Releases};

use super::output::Output;
use super::words::TypingWord;
use definition::ranged::Registers;
use fault::{Fault, Reason};
use space_words::reaching::reach;
use steps::base::base;
use steps::cells::{self, Data};
use steps::faults::ask;
use steps::inside::ask_inside;
use steps::progress::Progress;

// Lets n cells go if what the word types fitted.
fn finish(registers: &mut Registers, cells: &[u16; 128], n: usize, fitted: bool) -> Progress
    requires { n ≤ registers.old.seat.depths.cells }
    ensures { Releases fitted n registers.old cells.now result registers.new }
{
    if !fitted {
        return Progress::Full;
    }
    cells::release::<Data>(registers, cells, n);
    Progress::Went
}

// BASE, if there are digits in it.
fn base_of(registers: &Registers, image: &[u8; 65536]) -> Result<u16, Fault>
    ensures { IsAnswered result (λ b. (b ≡ cell_at image.now 32768) × (is_base b ≡ true) × (2 ≤ b) × (b ≤ 36)) (is_base (cell_at image.now 32768) ≡ false) BadBase registers.now.seat }
{
    let base = base(image);
    ask(registers, numbers::is_base(base), Reason::BadBase)?;
    Ok(base)
}

// Writes a cell in a base, signed or unsigned, and the blank behind it to the front of blanks; how many bytes they are: there is no heap.
fn write_number(base: u16, x: u16, signed: bool, text: &mut [u8; 18]) -> usize
    requires base { (2 ≤ base) × (base ≤ 36) }
    requires blank { text.old ≡ replicate 18 32 }
    ensures written { take result text.new ≡ number_text signed base x ++ 32 ∷ [] }
    ensures bounded { result ≤ 18 }
{
    if signed {
        let width = numbers::signed_width(base, x);
        numbers::write_signed(base, x, &mut text[..width]);
        return width + 1;
    }
    let width = numbers::unsigned_width(base, x);
    numbers::write_unsigned(base, x, &mut text[..width]);
    width + 1
}

// . and U.
fn number(
    registers: &mut Registers,
    image: &[u8; 65536],
    cells: &[u16; 128],
    output: &mut Output,
    signed: bool,
) -> Result<Progress, Fault>
    ensures did { OnOutput (number_word signed) registers.old image.now cells.now output.old.bytes.now output.old.typed result registers.new output.new.bytes.now output.new.typed }
    ensures size { length output.new.bytes.now ≡ length output.old.bytes.now }
    ensures same_reference { output.new.bytes.ghost_name ≡ output.old.bytes.ghost_name }
{
    cells::need::<Data>(registers, 1)?;
    let base = base_of(registers, image)?;
    let x = cells::cell::<Data>(registers, cells, 0);
    let mut text = [b' '; 18];
    let length = write_number(base, x, signed, &mut text);
    let fitted = output.type_bytes(&text[..length]);
    Ok(finish(registers, cells, 1, fitted))
}

// The cast loses nothing: the rest is below 128.
fn low_seven_bits(x: u16) -> u8
    ensures { result ≡ x % 128 }
{
    (x % 128) as u8
}

fn emit(
    registers: &mut Registers,
    image: &[u8; 65536],
    cells: &[u16; 128],
    output: &mut Output,
) -> Result<Progress, Fault>
    ensures did { OnOutput 51 registers.old image.now cells.now output.old.bytes.now output.old.typed result registers.new output.new.bytes.now output.new.typed }
    ensures size { length output.new.bytes.now ≡ length output.old.bytes.now }
    ensures same_reference { output.new.bytes.ghost_name ≡ output.old.bytes.ghost_name }
{
    cells::need::<Data>(registers, 1)?;
    let byte = low_seven_bits(cells::cell::<Data>(registers, cells, 0));
    let fitted = output.type_bytes(&[byte]);
    Ok(finish(registers, cells, 1, fitted))
}

// How many bytes a signed count asks for: below 0 none. By `cast_signed`, `max` and `cast_unsigned` it is longer to read.
fn count_of(x: u16) -> u16
    ensures { result ≡ counted x }
{
    if x >= 32768 { 0 } else { x }
}

fn type_space(
    registers: &mut Registers,
    image: &[u8; 65536],
    cells: &[u16; 128],
    output: &mut Output,
) -> Result<Progress, Fault>
    ensures did { OnOutput 52 registers.old image.now cells.now output.old.bytes.now output.old.typed result registers.new output.new.bytes.now output.new.typed }
    ensures size { length output.new.bytes.now ≡ length output.old.bytes.now }
    ensures same_reference { output.new.bytes.ghost_name ≡ output.old.bytes.ghost_name }
{
    cells::need::<Data>(registers, 2)?;
    let n = count_of(cells::cell::<Data>(registers, cells, 0));
    let address = cells::cell::<Data>(registers, cells, 1);
    reach(registers, address, n)?;
    let from = usize::from(address);
    let end = from + usize::from(n);
    let fitted = output.type_bytes(&image[from..end]);
    Ok(finish(registers, cells, 2, fitted))
}

fn new_line(
    registers: &mut Registers,
    image: &[u8; 65536],
    cells: &[u16; 128],
    output: &mut Output,
) -> Result<Progress, Fault>
    ensures did { OnOutput 53 registers.old image.now cells.now output.old.bytes.now output.old.typed result registers.new output.new.bytes.now output.new.typed }
    ensures size { length output.new.bytes.now ≡ length output.old.bytes.now }
    ensures same_reference { output.new.bytes.ghost_name ≡ output.old.bytes.ghost_name }
{
    let fitted = output.type_bytes(b"\r\n");
    Ok(finish(registers, cells, 0, fitted))
}

fn spaces(
    registers: &mut Registers,
    image: &[u8; 65536],
    cells: &[u16; 128],
    output: &mut Output,
) -> Result<Progress, Fault>
    ensures did { OnOutput 54 registers.old image.now cells.now output.old.bytes.now output.old.typed result registers.new output.new.bytes.now output.new.typed }
    ensures size { length output.new.bytes.now ≡ length output.old.bytes.now }
    ensures same_reference { output.new.bytes.ghost_name ≡ output.old.bytes.ghost_name }
{
    cells::need::<Data>(registers, 1)?;
    let n = count_of(cells::cell::<Data>(registers, cells, 0));
    let fitted = output.type_blanks(usize::from(n));
    Ok(finish(registers, cells, 1, fitted))
}

// The count byte at IP, if it and so many bytes behind it lie in the dictionary.
fn text_length(registers: &Registers, image: &[u8; 65536]) -> Result<u8, Fault>
    ensures { IsAnswered result (λ n. (n ≡ slice_index image.now registers.now.seat.flow.ip) × (inside registers.now.seat.flow.ip (n + 1) registers.now.shared.ends.dp ≡ true) × (registers.now.seat.flow.ip + n + 1 ≤ 32768)) (inside registers.now.seat.flow.ip (slice_index image.now registers.now.seat.flow.ip + 1) registers.now.shared.ends.dp ≡ false) BadToken registers.now.seat }
{
    let ip = registers.seat.flow.ip;
    let n = image[usize::from(ip)];
    ask_inside(registers, ip, u16::from(n) + 1)?;
    Ok(n)
}

// IP goes behind a text of n bytes and its count byte. What it shares with going behind a cell is the addition alone.
fn skip_text(registers: &mut Registers, n: u8)
    requires { registers.old.seat.flow.ip + n + 1 ≤ 32768 }
    ensures shared { registers.new.shared ≡ registers.old.shared }
    ensures seat { registers.new.seat ≡ with_pointer (registers.old.seat.flow.ip + n + 1) registers.old.seat }
{
    registers.seat.flow.ip += u16::from(n) + 1;
}

fn type_text(
    registers: &mut Registers,
    image: &[u8; 65536],
    cells: &[u16; 128],
    output: &mut Output,
) -> Result<Progress, Fault>
    ensures did { OnOutput 105 registers.old image.now cells.now output.old.bytes.now output.old.typed result registers.new output.new.bytes.now output.new.typed }
    ensures size { length output.new.bytes.now ≡ length output.old.bytes.now }
    ensures same_reference { output.new.bytes.ghost_name ≡ output.old.bytes.ghost_name }
{
    let n = text_length(registers, image)?;
    let from = usize::from(registers.seat.flow.ip) + 1;
    let end = from + usize::from(n);
    if !output.type_bytes(&image[from..end]) {
        return Ok(Progress::Full);
    }
    skip_text(registers, n);
    Ok(Progress::Went)
}

// . U. EMIT TYPE CR SPACES (."), by one match: a step has one dispatch and calls through no pointer.
pub fn typing_word(
    registers: &mut Registers,
    word: TypingWord,
    image: &[u8; 65536],
    cells: &[u16; 128],
    output: &mut Output,
) -> Result<Progress, Fault>
    ensures did { OnOutput (typing_number word) registers.old image.now cells.now output.old.bytes.now output.old.typed result registers.new output.new.bytes.now output.new.typed }
    ensures size { length output.new.bytes.now ≡ length output.old.bytes.now }
    ensures same_reference { output.new.bytes.ghost_name ≡ output.old.bytes.ghost_name }
{
    match word {
        TypingWord::Dot => number(registers, image, cells, output, true),
        TypingWord::UDot => number(registers, image, cells, output, false),
        TypingWord::Emit => emit(registers, image, cells, output),
        TypingWord::Type => type_space(registers, image, cells, output),
        TypingWord::Cr => new_line(registers, image, cells, output),
        TypingWord::Spaces => spaces(registers, image, cells, output),
        TypingWord::Text => type_text(registers, image, cells, output),
    }
}
