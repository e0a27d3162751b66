// What words ask of what they find, and of the state.
ghost use Rattle.std.specs.Prelude.{◌≡◌, [], ◌∷◌, IfOk, Some, None};
ghost use Rattle.steps.specs.Asking.{StateAnswers};
ghost use Rattle.definition.specs.Kernel.{has_open, ip_set, ip_zero, none_open};
ghost use Rattle.fault.specs.declared.Reason.TheVariants.{NotFound};
ghost use Rattle.steps.specs.Seats.{IsAnswered};

use super::faults::{ask, refusal};
use definition::ranged::Registers;
use fault::{Fault, Reason};

// Is a word found?
pub fn ask_there(registers: &Registers, found: Option<u16>) -> Result<u16, Fault>
    ensures { IsAnswered result (λ entry. found ≡ Some entry) (found ≡ None) NotFound registers.now.seat }
{
    found.ok_or(refusal(registers, Reason::NotFound))
}

// Is a definition open?
pub fn ask_open(registers: &Registers) -> Result<(), Fault>
    ensures { StateAnswers (has_open ∷ []) registers.now result }
{
    ask(
        registers,
        registers.shared.names.opened != 0,
        Reason::NoDefinition,
    )
}

// Is none open?
pub fn ask_none_open(registers: &Registers) -> Result<(), Fault>
    ensures answers { StateAnswers (none_open ∷ []) registers.now result }
    ensures none { IfOk result (λ _. registers.now.shared.names.opened ≡ 0) }
{
    ask(
        registers,
        registers.shared.names.opened == 0,
        Reason::DefinitionOpen,
    )
}

// Is none open, and does no word run?
pub fn ask_at_rest(registers: &Registers) -> Result<(), Fault>
    ensures answers { StateAnswers (none_open ∷ ip_zero ∷ []) registers.now result }
    ensures none { IfOk result (λ _. registers.now.shared.names.opened ≡ 0) }
{
    ask_none_open(registers)?;
    ask_not_running(registers)
}

// Does a word run?
pub fn ask_running(registers: &Registers) -> Result<(), Fault>
    ensures { StateAnswers (ip_set ∷ []) registers.now result }
{
    ask(
        registers,
        registers.seat.flow.ip != 0,
        Reason::NoWordRunning,
    )
}

// Does none?
pub fn ask_not_running(registers: &Registers) -> Result<(), Fault>
    ensures { StateAnswers (ip_zero ∷ []) registers.now result }
{
    ask(registers, registers.seat.flow.ip == 0, Reason::WordRunning)
}
