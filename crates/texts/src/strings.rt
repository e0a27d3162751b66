// The text up to a byte, as `(` and `."` take it.
ghost use Rattle.std.specs.Prelude.{◌≡◌, ◌+◌, ◌≤◌, ◌&&◌, nat_le, nat_lt};
ghost use Rattle.texts.specs.Strings.{TookTo};

use super::scanning::{length_before, rest_of};
use super::words::{read_to, text_of, text_start};
use definition::ranged::Registers;
use fault::{Fault, Reason};
use steps::faults::refusal;

// Does the byte at `end` come in time: in the text, behind at most so many?
fn in_time(from: usize, end: usize, length: usize, most: usize) -> bool
    requires { (from ≤ 1024) × (most ≤ 1024) }
    ensures { result ≡ (nat_lt end length && nat_le end (from + most)) }
{
    end < length && end <= from + most
}

// Takes the text up to the next such byte, at most so many bytes: where it begins and ends in the image, which may be written while
// the text is in use. A pair, as its two ends go on separately into the image's calls.
pub fn take_to(
    registers: &mut Registers,
    image: &[u8; 65536],
    byte: u8,
    most: usize,
) -> Result<(usize, usize), Fault>
    requires { most ≤ 1024 }
    ensures shared { registers.new.shared ≡ registers.old.shared }
    ensures took { TookTo byte most registers.old image.now result registers.new }
{
    let text = text_of(registers, image);
    let from = usize::from(registers.seat.source.position.offset);
    let end = from + length_before(rest_of(text, from), byte);
    if !in_time(from, end, text.len(), most) {
        return Err(refusal(registers, Reason::NothingFollows));
    }
    let start = text_start(registers);
    let word = registers.seat.source.word;
    read_to(registers, (end + 1) as u16, word);
    Ok((start + from, start + end))
}
