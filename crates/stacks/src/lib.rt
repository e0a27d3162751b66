// Stack moves over a lent slice of any copied element. The caller keeps the depth; the stack is the
// first `depth` elements, its top the last of them, and what lies behind them is free.
// Slice and depth stay two parameters: the caller's registers keep the depth, and hold no lent memory.
#![tactic(auto)]

ghost use Rattle.std.specs.Prelude.{◌≡◌, ◌+◌, ◌-◌, ◌<◌, ◌≤◌, ◌∷◌, length, drop, slice_index_or};
ghost use Rattle.stacks.specs.Stack.{rolled, stack_of};

// Puts `x` on top of a stack of that depth; the new depth.
#[tactic(auto, using(crate::proofs::Laws::stack_push))]
pub fn push<T: Copy>(cells: &mut [T], depth: usize, x: T) -> usize
    requires { depth < length cells.old }
    ensures depth { result ≡ depth + 1 }
    ensures stack { stack_of (depth + 1) cells.new ≡ x ∷ stack_of depth cells.old }
{
    cells[depth] = x;
    depth + 1
}

// The k-th element from the top.
#[tactic(auto, using(crate::proofs::Laws::get_or_stack))]
pub fn pick<T: Copy>(cells: &[T], depth: usize, k: usize) -> T
    requires { (k < depth) × (depth ≤ length cells.now) }
    ensures { (z : T) → result ≡ slice_index_or (stack_of depth cells.now) k z }
{
    cells[depth - 1 - k]
}

// Takes the top n elements off; the new depth. The slice is lent for the contract, which speaks of the stack.
#[tactic(auto, using(crate::proofs::Laws::drop_stack))]
pub fn drop_top<T: Copy>(cells: &[T], depth: usize, n: usize) -> usize
    requires { (n ≤ depth) × (depth ≤ length cells.now) }
    ensures depth { result ≡ depth - n }
    ensures stack { stack_of (depth - n) cells.now ≡ drop n (stack_of depth cells.now) }
{
    depth - n
}

// Takes the k-th element from the top out and puts it on top.
#[tactic(auto, using(crate::proofs::Laws::stack_roll))]
pub fn roll<T: Copy>(cells: &mut [T], depth: usize, k: usize)
    requires { (k < depth) × (depth ≤ length cells.old) }
    ensures { (z : T) → stack_of depth cells.new ≡ rolled k (stack_of depth cells.old) z }
{
    cells[depth - 1 - k..depth].rotate_left(1);
}
