// Words that end the open definition, change the newest entry, or say where new ones go.
ghost use Rattle.std.specs.Prelude.{◌≡◌, ℕ, ◌+◌, ◌≤◌, true, false, List, length, take, Ok};
ghost use Rattle.compiling_words.specs.Acting.{is_made, OnState};
ghost use Rattle.definition.specs.Machine.{changed};
ghost use Rattle.definition.specs.declared.registers.Mark.{Mark};
ghost use Rattle.dictionary.specs.Dict.{open_joined};
ghost use Rattle.entries.specs.Entries.{first_at};
ghost use Rattle.image.specs.Views.{low_of};
ghost use Rattle.steps.specs.Does.{seen};
ghost use Rattle.store.specs.Meaning.{Meaning};

use super::compiled::token_bytes;
use super::flow::set_compiling;
use definition::ranged::Registers;
use dictionary::code::{CREATED, DOES};
use entries::Entries;
use fault::{Fault, Reason};
use steps::appending::append;
use steps::cells::{self, Returns};
use steps::faults::ask;
use steps::inside::has_newest;
use steps::pointer::go_to;
use steps::seat_dictionary::{dictionary_of, keep};
use steps::tokens::CompiledWord;

// The open entry joins its thread.
fn join(registers: &mut Registers, image: &mut [u8; 65536])
    requires { 1 ≤ registers.old.shared.names.opened }
    ensures did { (c t : List ℕ) (k : List Mark) (s : Meaning) → seen registers.new image.new c t k s ≡ changed open_joined (seen registers.old image.old c t k s) }
    ensures below { take 256 image.new ≡ take 256 image.old }
{
    let mut d = dictionary_of(registers);
    d.join_open(image);
    keep(registers, d);
}

// `;`
pub(crate) fn end_definition(
    registers: &mut Registers,
    image: &mut [u8; 65536],
) -> Result<(), Fault>
    requires { 1 ≤ registers.old.shared.names.opened }
    ensures did { (c t : List ℕ) → OnState 65 registers.old image.old c t result registers.new image.new }
    ensures below { take 256 image.new ≡ take 256 image.old }
{
    ask(registers, registers.seat.depths.marks == 0, Reason::BadMark)?;
    append(registers, image, &token_bytes(CompiledWord::Exit))?;
    join(registers, image);
    set_compiling(registers, false);
    Ok(())
}

// DEFINITIONS
pub(crate) fn choose_current(registers: &mut Registers)
    ensures { (i c t : List ℕ) → length i ≡ 65536 → OnState 70 registers.old i c t (Ok tt) registers.new i }
{
    let mut d = dictionary_of(registers);
    d.definitions();
    keep(registers, d);
}

// IMMEDIATE
pub(crate) fn mark_newest(registers: &Registers, image: &mut [u8; 65536])
    ensures did { (c t : List ℕ) → OnState 71 registers.now image.old c t (Ok tt) registers.now image.new }
    ensures below { take 256 image.new ≡ take 256 image.old }
{
    if has_newest(registers, image) {
        dictionary_of(registers).mark_immediate(image);
    }
}

// Is the newest entry a created word, with its extra cell in the dictionary?
#[tactic(auto, using(crate::proofs::Changed::token_below))]
fn is_made(registers: &Registers, image: &[u8; 65536]) -> bool
    ensures value { result ≡ is_made (low_of registers.now.shared.ends.dp image.now) registers.now.shared.names.newest }
    ensures whole { result ≡ true → (256 ≤ registers.now.shared.names.newest) × (first_at (low_of registers.now.shared.ends.dp image.now) registers.now.shared.names.newest + 4 ≤ registers.now.shared.ends.dp) }
{
    if !has_newest(registers, image) {
        return false;
    }
    let entries = Entries::new(image, registers.shared.ends.dp);
    let newest = registers.shared.names.newest;
    entries.first_parameter(newest) + 4 <= registers.shared.ends.dp
        && matches!(entries.cell(entries.token_of(newest)), CREATED | DOES)
}

// (;CODE): the newest entry gets the code that follows; then EXIT.
pub(crate) fn give_code(
    registers: &mut Registers,
    image: &mut [u8; 65536],
    returns: &[u16; 128],
) -> Result<(), Fault>
    ensures did { (c : List ℕ) → OnState 104 registers.old image.old c returns.now result registers.new image.new }
    ensures below { take 256 image.new ≡ take 256 image.old }
{
    cells::need::<Returns>(registers, 1)?;
    ask(registers, is_made(registers, image), Reason::NotCreated)?;
    dictionary_of(registers).set_does(image, registers.seat.flow.ip);
    let address = cells::cell::<Returns>(registers, returns, 0);
    cells::release::<Returns>(registers, returns, 1);
    go_to(registers, address);
    Ok(())
}
