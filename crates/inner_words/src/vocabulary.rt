// Vocabularies.
ghost use Rattle.std.specs.Prelude.{◌≡◌, ℕ, ◌+◌, ◌≤◌, List};
ghost use Rattle.definition.specs.Words.{other_word};
ghost use Rattle.definition.specs.declared.registers.Mark.{Mark};
ghost use Rattle.steps.specs.Does.{Does, seen};
ghost use Rattle.store.specs.Meaning.{Meaning};

use definition::ranged::Registers;
use dictionary::vocabularies::seek;
use fault::Fault;
use steps::faults::place;
use steps::inside::ask_inside;
use steps::seat_dictionary::{dictionary_of, keep};

// The first head of a vocabulary lies behind its first parameter cell.
fn first_head(token: u16) -> u16
    requires { token + 14 ≤ 32768 }
    ensures { result ≡ token + 4 }
{
    token + 4
}

// 204 becomes CONTEXT.
pub fn vocabulary_word(
    registers: &mut Registers,
    token: u16,
    image: &[u8; 65536],
) -> Result<(), Fault>
    ensures { (c t : List ℕ) (k : List Mark) (s : Meaning) → Does (other_word 204 token) (seen registers.old image.now c t k s) result (seen registers.new image.now c t k s) }
{
    ask_inside(registers, token, 14)?;
    let mut d = dictionary_of(registers);
    seek(&mut d, image, first_head(token), place(registers))?;
    keep(registers, d);
    Ok(())
}
