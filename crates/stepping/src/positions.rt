// Where a step goes back to if it is not taken.
ghost use Rattle.std.specs.Prelude.{◌≡◌, ℕ, ◌≤◌, List};
ghost use Rattle.definition.specs.Machine.{with_ip};
ghost use Rattle.definition.specs.declared.registers.Mark.{Mark};
ghost use Rattle.steps.specs.Does.{seen};
ghost use Rattle.stepping.specs.Steps.{with_source};
ghost use Rattle.store.specs.Meaning.{Meaning};

use definition::ranged::Registers;
use definition::registers::Source;

// The text, where it goes on, and its last word; then IP.
pub(crate) fn go_back(registers: &mut Registers, source: Source, ip: u16)
    requires { (source.length ≤ 128) × (source.position.offset ≤ 1024) }
    ensures { (i c t : List ℕ) (k : List Mark) (s : Meaning) → seen registers.new i c t k s ≡ with_ip ip (with_source source (seen registers.old i c t k s)) }
{
    registers.seat.source = source;
    registers.seat.flow.ip = ip;
}
