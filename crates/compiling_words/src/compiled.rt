// LITERAL, COMPILE and DOES> append to the open definition.
ghost use Rattle.std.specs.Prelude.{◌≡◌, ℕ, ◌+◌, ◌≤◌, true, false, List, take};
ghost use Rattle.compiling_words.specs.Acting.{OnState};
ghost use Rattle.definition.specs.Compile.{token};
ghost use Rattle.steps.specs.Numbers.{compiled_number};
ghost use Rattle.definition.specs.declared.registers.Mark.{Mark};
ghost use Rattle.fault.specs.declared.Reason.TheVariants.{DictionaryFull};
ghost use Rattle.steps.specs.Does.{seen};
ghost use Rattle.steps.specs.Seats.{IsAnswered};
ghost use Rattle.store.specs.Meaning.{Meaning};

use definition::ranged::Registers;
use fault::{Fault, Reason};
use steps::appending::{append, compiled, literal};
use steps::cells::{self, Data};
use steps::faults::ask;
use steps::inside::ask_inside;
use steps::pointer::set_pointer;
use steps::tokens::CompiledWord;

// LITERAL: the cell is taken off the stack, and pushed when the definition runs.
pub(crate) fn compile_literal(
    registers: &mut Registers,
    image: &mut [u8; 65536],
    cells: &[u16; 128],
) -> Result<(), Fault>
    ensures did { (t : List ℕ) → OnState 75 registers.old image.old cells.now t result registers.new image.new }
    ensures below { take 256 image.new ≡ take 256 image.old }
{
    cells::need::<Data>(registers, 1)?;
    let x = cells::cell::<Data>(registers, cells, 0);
    append(registers, image, &literal(x))?;
    cells::release::<Data>(registers, cells, 1);
    Ok(())
}

// A kernel word's token, as it is compiled.
pub(crate) fn token_bytes(word: CompiledWord) -> [u8; 2]
    ensures { result ≡ token (compiled_number word) }
{
    compiled(word.token())
}

// COMPILE: the token that follows is appended.
pub(crate) fn compile_next(registers: &mut Registers, image: &mut [u8; 65536]) -> Result<(), Fault>
    ensures did { (c t : List ℕ) → OnState 78 registers.old image.old c t result registers.new image.new }
    ensures below { take 256 image.new ≡ take 256 image.old }
{
    ask(
        registers,
        registers.shared.ends.dp <= 32766,
        Reason::DictionaryFull,
    )?;
    let ip = registers.seat.flow.ip;
    ask_inside(registers, ip, 2)?;
    let token = image::fetch(image, usize::from(ip));
    append(registers, image, &compiled(token))?;
    set_pointer(registers, ip + 2);
    Ok(())
}

// DOES>: the definition ends with (;CODE), and what follows is the DOES> code.
pub(crate) fn compile_does(registers: &mut Registers, image: &mut [u8; 65536]) -> Result<(), Fault>
    ensures did { (c t : List ℕ) → OnState 79 registers.old image.old c t result registers.new image.new }
    ensures below { take 256 image.new ≡ take 256 image.old }
{
    append(registers, image, &token_bytes(CompiledWord::SemicolonCode))
}
