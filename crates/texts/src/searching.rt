// The search for a name.
ghost use Rattle.std.specs.Prelude.{◌≡◌, ℕ, ◌≤◌, List, length};
ghost use Rattle.definition.specs.Machine.{dict_of};
ghost use Rattle.definition.specs.Text.{ask_found};
ghost use Rattle.definition.specs.declared.registers.Mark.{Mark};
ghost use Rattle.dictionary.specs.Lent.{dict_in};
ghost use Rattle.dictionary.specs.Search.{searched};
ghost use Rattle.entries.specs.Threads.{Ascii, answered};
ghost use Rattle.texts.specs.Finding.{Answers, EntryInside};
ghost use Rattle.steps.specs.Does.{seen};
ghost use Rattle.steps.specs.Seats.{told_by};
ghost use Rattle.store.specs.Meaning.{Meaning};

use definition::ranged::Registers;
use fault::Fault;
use steps::faults::place;
use steps::seat_dictionary::dictionary_of;

// What the seat's dictionary finds, told where the seat stands in its text.
fn answer(registers: &Registers, image: &[u8; 65536], name: &[u8]) -> Result<Option<u16>, Fault>
    requires { (1 ≤ length name.now) × (Ascii name.now) }
    ensures { result ≡ answered (told_by registers.now.seat) (searched (dict_in registers.now.shared.ends registers.now.shared.names registers.now.seat.order image.now) name.now) }
{
    let d = dictionary_of(registers);
    d.search(image, name, place(registers))
}

// The entry of a name in the search order, or nothing.
pub fn search(registers: &Registers, image: &[u8; 65536], name: &[u8]) -> Result<Option<u16>, Fault>
    requires { (1 ≤ length name.now) × (Ascii name.now) }
    ensures found { (c t : List ℕ) (k : List Mark) (s : Meaning) → Answers (ask_found (seen registers.now image.now c t k s) (searched (dict_of (seen registers.now image.now c t k s)) name.now)) result (seen registers.now image.now c t k s) }
    ensures inside { EntryInside registers.now.shared.ends.dp result }
{
    answer(registers, image, name)
}
