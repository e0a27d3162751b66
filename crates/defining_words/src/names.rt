// The name of a word that is to be defined, while none is open.
ghost use Rattle.std.specs.Prelude.{◌≡◌, [], ◌∷◌, IfOk};
ghost use Rattle.defining_words.specs.Defining.{NamedFor};
ghost use Rattle.definition.specs.Kernel.{ip_zero, none_open};

use definition::ranged::Registers;
use fault::Fault;
use steps::asking::{ask_at_rest, ask_none_open};
use texts::name::Name;
use texts::names::take_name;

// That of an entry that joins at once.
pub(crate) fn new_name(registers: &mut Registers, image: &[u8; 65536]) -> Result<Name, Fault>
    ensures { NamedFor (none_open ∷ []) registers.old image.now result registers.new }
{
    let name = take_name(registers, image)?;
    ask_none_open(registers)?;
    Ok(name)
}

// That of a colon word, which stays open.
pub(crate) fn colon_name(registers: &mut Registers, image: &[u8; 65536]) -> Result<Name, Fault>
    ensures named { NamedFor (none_open ∷ ip_zero ∷ []) registers.old image.now result registers.new }
    ensures none { IfOk result (λ _. registers.new.shared.names.opened ≡ 0) }
{
    let name = take_name(registers, image)?;
    ask_at_rest(registers)?;
    Ok(name)
}
