// FORGET.
ghost use Rattle.std.specs.Prelude.{◌≡◌, ℕ, List, take};
ghost use Rattle.definition.specs.Boot.{fence};
ghost use Rattle.naming_words.specs.Forgettable.{TookForgettable};
ghost use Rattle.steps.specs.Does.{FromText};

use definition::ranged::Registers;
use fault::Fault;
use kernel_table::fence_address;
use steps::asking::{ask_at_rest, ask_there};
use steps::faults::place;
use steps::seat_dictionary::{dictionary_of, keep};
use texts::names::take_name;
use trimming::{can_trim, find, trim};

// Below it no word is forgotten: a function, so that all else that is known of boot stays out of the words' proofs.
fn first_forgettable() -> u16
    ensures { result ≡ fence }
{
    fence_address()
}

// Takes a name, and finds its entry in CURRENT, where all that is walked to forget it is in order.
fn take_forgettable(registers: &mut Registers, image: &[u8; 65536]) -> Result<u16, Fault>
    ensures { TookForgettable registers.old image.now result registers.new }
{
    let name = take_name(registers, image)?;
    let told = place(registers);
    let d = dictionary_of(registers);
    let found = find(&d, image, name.text(), told)?;
    let entry = ask_there(registers, found)?;
    can_trim(&d, image, first_forgettable(), entry, told)?;
    Ok(entry)
}

// FORGET
pub(crate) fn forget(registers: &mut Registers, image: &mut [u8; 65536]) -> Result<(), Fault>
    ensures did { (c : List ℕ) → FromText 72 registers.old image.old c result registers.new image.new c }
    ensures below { take 256 image.new ≡ take 256 image.old }
{
    let entry = take_forgettable(registers, image)?;
    ask_at_rest(registers)?;
    let told = place(registers);
    let mut d = dictionary_of(registers);
    trim(&mut d, image, first_forgettable(), entry, told)?;
    keep(registers, d);
    Ok(())
}
