// Created words and constants, executed by their token, and >BODY.
ghost use Rattle.std.specs.Prelude.{◌≡◌, ℕ, ◌+◌, ◌^◌, ◌<◌, ◌≤◌, true, false, List};
ghost use Rattle.definition.specs.Words.{other_word};
ghost use Rattle.definition.specs.declared.registers.Mark.{Mark};
ghost use Rattle.inner_words.specs.Tokens.{made_by_create, pushing_code, pushing_place};
ghost use Rattle.fault.specs.declared.Reason.TheVariants.{BadToken};
ghost use Rattle.image.specs.Cells.{cell_at};
ghost use Rattle.image.specs.Views.{low_of};
ghost use Rattle.steps.specs.Does.{Does, OnSpace, seen};
ghost use Rattle.steps.specs.Inside.{inside};
ghost use Rattle.steps.specs.Seats.{IsAnswered};
ghost use Rattle.store.specs.Meaning.{Meaning};

use definition::ranged::Registers;
use dictionary::code::{CREATED, DOES};
use fault::{Fault, Reason};
use steps::cells::{self, Data};
use steps::faults::ask;
use steps::inside::{ask_inside, is_inside};

// Words whose token pushes a cell of their entry.
#[derive(Clone, Copy)]
pub enum PushingWord {
    Created,
    Constant,
}

// Where that cell lies, from the token on.
fn place_of(word: PushingWord) -> u16
    ensures { result ≡ pushing_place word }
{
    match word {
        PushingWord::Created => 2,
        PushingWord::Constant => 4,
    }
}

// The cell that lies so far behind a token, if the dictionary holds the bytes up to its end.
fn cell_behind(
    registers: &Registers,
    image: &[u8; 65536],
    token: u16,
    place: u16,
) -> Result<u16, Fault>
    requires { place + 2 < 2 ^ 16 }
    ensures { IsAnswered result (λ x. (inside token (place + 2) registers.now.shared.ends.dp ≡ true) × (x ≡ cell_at image.now (token + place))) (inside token (place + 2) registers.now.shared.ends.dp ≡ false) BadToken registers.now.seat }
{
    ask_inside(registers, token, place + 2)?;
    Ok(image::fetch(image, usize::from(token) + usize::from(place)))
}

// 202 pushes its body, 203 its value.
pub fn pushing_word(
    registers: &mut Registers,
    word: PushingWord,
    token: u16,
    image: &[u8; 65536],
    cells: &mut [u16; 128],
) -> Result<(), Fault>
    ensures { (t : List ℕ) (k : List Mark) (s : Meaning) → Does (other_word (pushing_code word) token) (seen registers.old image.now cells.old t k s) result (seen registers.new image.now cells.new t k s) }
{
    let x = cell_behind(registers, image, token, place_of(word))?;
    cells::leave(registers, cells, x)
}

// Is it the token of a word that CREATE made, with its first parameter cell in the dictionary?
fn is_created(registers: &Registers, image: &[u8; 65536], token: u16) -> bool
    ensures value { result ≡ made_by_create (low_of registers.now.shared.ends.dp image.now) registers.now.shared.ends.dp token }
    ensures within { result ≡ true → token + 4 ≤ 32768 }
{
    is_inside(registers, token, 4)
        && matches!(image::fetch(image, usize::from(token)), CREATED | DOES)
}

// >BODY
pub fn body_word(
    registers: &mut Registers,
    image: &[u8; 65536],
    cells: &mut [u16; 128],
) -> Result<(), Fault>
    ensures { OnSpace 61 registers.old image.now cells.old result registers.new image.now cells.new }
{
    cells::need::<Data>(registers, 1)?;
    let token = cells::cell::<Data>(registers, cells, 0);
    ask(
        registers,
        is_created(registers, image, token),
        Reason::BadToken,
    )?;
    let x = image::fetch(image, usize::from(token) + 2);
    cells::replace(registers, cells, 1, x);
    Ok(())
}
