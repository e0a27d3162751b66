// The marks, of which the registers keep how many there are.
ghost use Rattle.std.specs.Prelude.{◌≡◌, ◌+◌, ◌-◌, ◌≤◌, ◌∷◌, ◌++◌, drop, length};
ghost use Rattle.control_words.specs.Structures.{address_at, is_mark, kinds_of, marks_of, with_mark_depth, Replaces};
ghost use Rattle.definition.specs.Compile.{are_marks};
ghost use Rattle.stacks.specs.Stack.{stack_of};

use super::structures::{Leaves, Takes};
use definition::ranged::Registers;
use definition::registers::{Kind, Mark};

pub(crate) fn depth(registers: &Registers) -> usize
    ensures value { result ≡ registers.now.seat.depths.marks }
    ensures limit { result ≤ 32 }
{
    usize::from(registers.seat.depths.marks)
}

// The address of the k-th mark from the top; 0 where there is none.
pub(crate) fn mark_address(registers: &Registers, marks: &[Mark; 32], k: usize) -> u16
    ensures { result ≡ address_at k (stack_of registers.now.seat.depths.marks marks.now) }
{
    if k >= depth(registers) {
        return 0;
    }
    stacks::pick(marks, depth(registers), k).address
}

// Is the k-th mark of this kind?
fn is_mark(registers: &Registers, marks: &[Mark; 32], k: usize, kind: Kind) -> bool
    ensures { result ≡ is_mark k kind (stack_of registers.now.seat.depths.marks marks.now) }
{
    k < depth(registers) && stacks::pick(marks, depth(registers), k).kind == kind
}

// Are the top marks of these kinds?
pub(crate) fn are_marks(registers: &Registers, marks: &[Mark; 32], takes: Takes) -> bool
    ensures { result ≡ are_marks (kinds_of takes) (stack_of registers.now.seat.depths.marks marks.now) }
{
    match takes {
        Takes::Nothing => true,
        Takes::One(kind) => is_mark(registers, marks, 0, kind),
        Takes::Two(top, under) => {
            is_mark(registers, marks, 0, top) && is_mark(registers, marks, 1, under)
        }
    }
}

// Puts a mark on top.
fn push(registers: &mut Registers, marks: &mut [Mark; 32], mark: Mark)
    requires { registers.old.seat.depths.marks + 1 ≤ 32 }
    ensures shared { registers.new.shared ≡ registers.old.shared }
    ensures seat { registers.new.seat ≡ with_mark_depth (registers.old.seat.depths.marks + 1) registers.old.seat }
    ensures stack { stack_of (registers.old.seat.depths.marks + 1) marks.new ≡ mark ∷ stack_of registers.old.seat.depths.marks marks.old }
{
    let depth = stacks::push(marks, depth(registers), mark);
    registers.seat.depths.marks = depth as u16;
}

// Puts what a word leaves in the place of the top n marks.
pub(crate) fn replace_marks(
    registers: &mut Registers,
    marks: &mut [Mark; 32],
    n: usize,
    leaves: Leaves,
)
    requires taken { n ≤ registers.old.seat.depths.marks }
    requires room { length (marks_of leaves) + registers.old.seat.depths.marks ≤ 32 + n }
    ensures { Replaces n leaves registers.old marks.old registers.new marks.new }
{
    registers.seat.depths.marks = stacks::drop_top(marks, depth(registers), n) as u16;
    match leaves {
        Leaves::Nothing => {}
        Leaves::One(mark) => push(registers, marks, mark),
        Leaves::Two(top, under) => {
            push(registers, marks, under);
            push(registers, marks, top);
        }
    }
}
