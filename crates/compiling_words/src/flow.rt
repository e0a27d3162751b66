// The compiling flag.
ghost use Rattle.std.specs.Prelude.{◌≡◌, ℕ, List};
ghost use Rattle.definition.specs.Machine.{with_compiling};
ghost use Rattle.definition.specs.declared.registers.Mark.{Mark};
ghost use Rattle.steps.specs.Does.{seen};
ghost use Rattle.store.specs.Meaning.{Meaning};

use definition::ranged::Registers;

pub(crate) fn set_compiling(registers: &mut Registers, compiling: bool)
    ensures { (i c t : List ℕ) (k : List Mark) (s : Meaning) → seen registers.new i c t k s ≡ with_compiling compiling (seen registers.old i c t k s) }
{
    registers.seat.flow.compiling = compiling;
}
