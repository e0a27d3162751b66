// Building a structure: its questions, then its bytes, its cell and its marks.
ghost use Rattle.std.specs.Prelude.{◌≡◌, ℕ, ◌+◌, ◌≤◌, true, false, List, length, take, IfSome};
ghost use Rattle.steps.specs.Spaces.{InSpace};
ghost use Rattle.control_words.specs.Structures.{bytes_of, cells_of, kinds_of, learned, marks_of, Builds, Learns};
ghost use Rattle.definition.specs.Compile.{are_marks};
ghost use Rattle.dictionary.specs.Dict.{appended};
ghost use Rattle.fault.specs.declared.Reason.TheVariants.{BadMark};
ghost use Rattle.stacks.specs.Stack.{stack_of};
ghost use Rattle.steps.specs.Inside.{inside};
ghost use Rattle.steps.specs.Seats.{IsAnswered};

use super::marks::{are_marks, depth, replace_marks};
use super::structures::{Jump, Leaves, Structure, Takes};
use definition::ranged::Registers;
use definition::registers::Mark;
use fault::{Fault, Reason};
use steps::appending::append;
use steps::faults::ask;
use steps::inside::is_inside;
use steps::seat_dictionary::dictionary_of;

impl Takes {
    fn count(self) -> usize
        ensures { result ≡ length (kinds_of self) }
    {
        match self {
            Takes::Nothing => 0,
            Takes::One(_) => 1,
            Takes::Two(_, _) => 2,
        }
    }
}

impl Leaves {
    fn count(self) -> usize
        ensures { result ≡ length (marks_of self) }
    {
        match self {
            Leaves::Nothing => 0,
            Leaves::One(_) => 1,
            Leaves::Two(_, _) => 2,
        }
    }
}

// Does the cell that learns an address, if there is one, lie in the dictionary?
fn is_cell(registers: &Registers, learns: Option<u16>) -> bool
    ensures value { result ≡ learned registers.now.shared.ends.dp learns }
    ensures inside { result ≡ true → IfSome learns (λ a. (256 ≤ a) × (a + 2 ≤ registers.now.shared.ends.dp)) }
{
    match learns {
        None => true,
        Some(a) => is_inside(registers, a, 2),
    }
}

fn append_jump(
    registers: &mut Registers,
    image: &mut [u8; 65536],
    jump: Option<Jump>,
) -> Result<(), Fault>
    ensures did { InSpace (length (bytes_of jump)) (appended (bytes_of jump)) registers.old image.old result registers.new image.new }
    ensures depths { registers.new.seat.depths ≡ registers.old.seat.depths }
    ensures below { take 256 image.new ≡ take 256 image.old }
{
    match jump {
        None => append(registers, image, &[]),
        Some(jump) => append(registers, image, &jump.bytes()),
    }
}

// The cell, if there is one, learns DP.
fn learn(registers: &Registers, image: &mut [u8; 65536], learns: Option<u16>)
    requires { IfSome learns (λ a. (256 ≤ a) × (a + 2 ≤ registers.now.shared.ends.dp)) }
    ensures did { Learns learns registers.now image.old image.new }
    ensures below { take 256 image.new ≡ take 256 image.old }
{
    if let Some(a) = learns {
        dictionary_of(registers).patch(image, a, registers.shared.ends.dp);
    }
}

// Asks for the marks and their cell, and for space for marks (19) and bytes (20); then builds.
pub(crate) fn build(
    registers: &mut Registers,
    image: &mut [u8; 65536],
    marks: &mut [Mark; 32],
    structure: Structure,
) -> Result<(), Fault>
    ensures did { Builds structure registers.old image.old marks.old result registers.new image.new marks.new }
    ensures below { take 256 image.new ≡ take 256 image.old }
{
    let taken = structure.takes.count();
    let left = structure.leaves.count();
    let held = are_marks(registers, marks, structure.takes);
    ask(registers, held, Reason::BadMark)?;
    ask(
        registers,
        is_cell(registers, structure.learns),
        Reason::BadMark,
    )?;
    ask(
        registers,
        left + depth(registers) <= 32 + taken,
        Reason::BadMark,
    )?;
    append_jump(registers, image, structure.appends)?;
    learn(registers, image, structure.learns);
    replace_marks(registers, marks, taken, structure.leaves);
    Ok(())
}
