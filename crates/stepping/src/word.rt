// What a word of the text does.
ghost use Rattle.std.specs.Prelude.{◌≡◌, take};
ghost use Rattle.stepping.specs.Steps.{Interprets};
ghost use Rattle.texts.specs.Texts.{WordInside};

use super::next::Next;
use definition::ranged::Registers;
use fault::Fault;
use steps::appending::{append, compiled, literal};
use steps::cells;
use texts::kinds::word_of;
use texts::word::Word;

// What happens depends on the compiling flag and on the word just taken. A token to be executed is answered: execution is called from
// one place.
pub(crate) fn interpret(
    registers: &mut Registers,
    image: &mut [u8; 65536],
    cells: &mut [u16; 128],
) -> Result<Next, Fault>
    requires { WordInside registers.old.seat }
    ensures did { Interprets registers.old image.old cells.old result registers.new image.new cells.new }
    ensures below { take 256 image.new ≡ take 256 image.old }
{
    match (registers.seat.flow.compiling, word_of(registers, image)?) {
        (_, Word::Immediate(token)) => return Ok(Next::Execute(token)),
        (false, Word::Plain(token)) => return Ok(Next::Execute(token)),
        (false, Word::Number(n)) => cells::leave(registers, cells, n)?,
        (true, Word::Plain(token)) => append(registers, image, &compiled(token))?,
        (true, Word::Number(n)) => append(registers, image, &literal(n))?,
    }
    Ok(Next::Went)
}
