// The entry of a name that follows in the text, and its token.
ghost use Rattle.std.specs.Prelude.{◌≡◌, ◌+◌, ◌≤◌};
ghost use Rattle.entries.specs.Entries.{token_of};
ghost use Rattle.naming_words.specs.Entries.{TookEntry};
ghost use Rattle.image.specs.Views.{low_of};

use definition::ranged::Registers;
use entries::Entries;
use fault::Fault;
use steps::asking::ask_there;
use texts::names::take_name;
use texts::searching::search;

// Takes a name, and finds its entry in the search order.
pub(crate) fn take_entry(registers: &mut Registers, image: &[u8; 65536]) -> Result<u16, Fault>
    ensures shared { registers.new.shared ≡ registers.old.shared }
    ensures took { TookEntry registers.old image.now result registers.new }
{
    let name = take_name(registers, image)?;
    let found = search(registers, image, name.text())?;
    ask_there(registers, found)
}

// Its token.
pub(crate) fn token_at(registers: &Registers, image: &[u8; 65536], entry: u16) -> u16
    requires { (258 ≤ entry) × (entry + 7 ≤ registers.now.shared.ends.dp) }
    ensures { result ≡ token_of (low_of registers.now.shared.ends.dp image.now) entry }
{
    Entries::new(image, registers.shared.ends.dp).token_of(entry)
}
