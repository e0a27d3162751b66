// The two stacks of cells: questions on them and their moves, written once for both.
ghost use Rattle.std.specs.Prelude.{◌≡◌, ℕ, ◌+◌, ◌-◌, ◌<◌, ◌≤◌, List, [], ◌∷◌, drop, slice_index};
ghost use Rattle.fault.specs.declared.Reason.{Reason};
ghost use Rattle.fault.specs.declared.Reason.TheVariants.{ReturnOverflow, ReturnUnderflow, StackOverflow, StackUnderflow};
ghost use Rattle.definition.specs.Stacks.{replaced};
ghost use Rattle.definition.specs.declared.registers.Mark.{Mark};
ghost use Rattle.definition.specs.declared.registers.Seat.{Seat};
ghost use Rattle.steps.specs.Does.{Does, seen};
ghost use Rattle.store.specs.Meaning.{Meaning};
ghost use Rattle.stacks.specs.Stack.{stack_of};
ghost use Rattle.steps.specs.Seats.{IsAnswered, with_cell_depth, with_return_depth};

use super::faults::ask;
use definition::ranged::Registers;
use fault::{Fault, Reason};

// Which of a seat's two stacks of cells: how many of them are in use, and what refuses too few and too many.
pub trait CellStack {
    ghost depth_of: { Seat → ℕ };

    ghost with_depth: { ℕ → Seat → Seat };

    ghost UNDERFLOW: { Reason };

    ghost OVERFLOW: { Reason };

    const UNDERFLOW: Reason;

    const OVERFLOW: Reason;

    fn depth(registers: &Registers) -> u16
        ensures value { result ≡ depth_of registers.now.seat }
        ensures within { result ≤ 128 };

    fn set_depth(registers: &mut Registers, depth: u16)
        requires { depth ≤ 128 }
        ensures shared { registers.new.shared ≡ registers.old.shared }
        ensures seat { registers.new.seat ≡ with_depth depth registers.old.seat };
}

// The data stack.
pub struct Data;

impl CellStack for Data {
    ghost depth_of = { λ t. t.depths.cells };

    ghost with_depth = { with_cell_depth };

    ghost UNDERFLOW = { StackUnderflow };

    ghost OVERFLOW = { StackOverflow };

    const UNDERFLOW: Reason = Reason::StackUnderflow;

    const OVERFLOW: Reason = Reason::StackOverflow;

    fn depth(registers: &Registers) -> u16 {
        registers.seat.depths.cells
    }

    fn set_depth(registers: &mut Registers, depth: u16) {
        registers.seat.depths.cells = depth;
    }
}

// The return stack.
pub struct Returns;

impl CellStack for Returns {
    ghost depth_of = { λ t. t.depths.returns };

    ghost with_depth = { with_return_depth };

    ghost UNDERFLOW = { ReturnUnderflow };

    ghost OVERFLOW = { ReturnOverflow };

    const UNDERFLOW: Reason = Reason::ReturnUnderflow;

    const OVERFLOW: Reason = Reason::ReturnOverflow;

    fn depth(registers: &Registers) -> u16 {
        registers.seat.depths.returns
    }

    fn set_depth(registers: &mut Registers, depth: u16) {
        registers.seat.depths.returns = depth;
    }
}

// Are there n cells?
pub fn need<S: CellStack>(registers: &Registers, n: usize) -> Result<(), Fault>
    ensures { IsAnswered result (λ _. n ≤ S.depth_of registers.now.seat) (S.depth_of registers.now.seat < n) S.UNDERFLOW registers.now.seat }
{
    let found = usize::from(S::depth(registers));
    ask(registers, n <= found, S::UNDERFLOW)
}

// Is there space for n cells more?
pub fn room<S: CellStack>(registers: &Registers, n: usize) -> Result<(), Fault>
    ensures { IsAnswered result (λ _. n + S.depth_of registers.now.seat ≤ 128) (128 < n + S.depth_of registers.now.seat) S.OVERFLOW registers.now.seat }
{
    let space = usize::from(128 - S::depth(registers));
    ask(registers, n <= space, S::OVERFLOW)
}

// The k-th cell from the top.
pub fn cell<S: CellStack>(registers: &Registers, cells: &[u16; 128], k: usize) -> u16
    requires { k < S.depth_of registers.now.seat }
    ensures { result ≡ slice_index (stack_of (S.depth_of registers.now.seat) cells.now) k }
{
    stacks::pick(cells, usize::from(S::depth(registers)), k)
}

// Puts a cell on top. The cast loses nothing: a depth is at most 128. `push` and `release` are alike in shape alone.
pub fn push<S: CellStack>(registers: &mut Registers, cells: &mut [u16; 128], x: u16)
    requires { S.depth_of registers.old.seat < 128 }
    ensures shared { registers.new.shared ≡ registers.old.shared }
    ensures seat { registers.new.seat ≡ S.with_depth (S.depth_of registers.old.seat + 1) registers.old.seat }
    ensures stack { stack_of (S.depth_of registers.old.seat + 1) cells.new ≡ x ∷ stack_of (S.depth_of registers.old.seat) cells.old }
{
    let depth = stacks::push(cells, usize::from(S::depth(registers)), x);
    S::set_depth(registers, depth as u16);
}

// Lets the top n cells go.
pub fn release<S: CellStack>(registers: &mut Registers, cells: &[u16; 128], n: usize)
    requires { n ≤ S.depth_of registers.old.seat }
    ensures shared { registers.new.shared ≡ registers.old.shared }
    ensures seat { registers.new.seat ≡ S.with_depth (S.depth_of registers.old.seat - n) registers.old.seat }
    ensures stack { stack_of (S.depth_of registers.old.seat - n) cells.now ≡ drop n (stack_of (S.depth_of registers.old.seat) cells.now) }
{
    let depth = stacks::drop_top(cells, usize::from(S::depth(registers)), n);
    S::set_depth(registers, depth as u16);
}

// Puts a data cell in the place of the top n.
pub fn replace(registers: &mut Registers, cells: &mut [u16; 128], n: usize, x: u16)
    requires { (0 < n) × (n ≤ registers.old.seat.depths.cells) }
    ensures shared { registers.new.shared ≡ registers.old.shared }
    ensures seat { registers.new.seat ≡ with_cell_depth (registers.old.seat.depths.cells - n + 1) registers.old.seat }
    ensures stack { stack_of (registers.old.seat.depths.cells - n + 1) cells.new ≡ x ∷ drop n (stack_of registers.old.seat.depths.cells cells.old) }
{
    release::<Data>(registers, cells, n);
    push::<Data>(registers, cells, x);
}

// Leaves one data cell more, if there is space for it.
pub fn leave(registers: &mut Registers, cells: &mut [u16; 128], x: u16) -> Result<(), Fault>
    ensures { (i t : List ℕ) (k : List Mark) (s : Meaning) → Does (replaced 0 (x ∷ [])) (seen registers.old i cells.old t k s) result (seen registers.new i cells.new t k s) }
{
    room::<Data>(registers, 1)?;
    push::<Data>(registers, cells, x);
    Ok(())
}
