// The registers with their pointers in range and their depths within the stacks.
ghost use Rattle.std.specs.Prelude.{ℕ, ◌+◌, ◌<◌, ◌≤◌};
ghost use Rattle.definition.specs.Ranges.{load_at, settled};

use super::registers::{Seat, Shared};

#[derive(Clone, Copy, PartialEq, Eq)]
pub struct Registers {
    pub shared: Shared,
    pub seat: Seat,
    // DP is 280 to 32,768, also without the open entry, whose name begins below it.
    ghost bottom: { 280 ≤ settled shared },
    ghost open: { shared.names.opened + 3 < shared.ends.dp },
    ghost top: { shared.ends.dp ≤ 32768 },
    // CONTEXT and CURRENT lie in the dictionary, also without the open entry.
    ghost context_low: { 270 ≤ seat.order.context },
    ghost context_high: { seat.order.context + 10 ≤ settled shared },
    ghost current_low: { 270 ≤ seat.order.current },
    ghost current_high: { seat.order.current + 10 ≤ settled shared },
    // HERE is 34,048 to 65,535.
    ghost space: { 34048 ≤ shared.ends.here },
    ghost limit: { shared.ends.here ≤ 65535 },
    // Depths lie within the stacks, and offsets within the longest text.
    ghost cells: { seat.depths.cells ≤ 128 },
    ghost returns: { seat.depths.returns ≤ 128 },
    ghost marks: { seat.depths.marks ≤ 32 },
    ghost line: { seat.source.length ≤ 128 },
    ghost text: { seat.source.position.offset ≤ 1024 },
    ghost loads: { seat.loads.count ≤ 8 },
    ghost callers: { ((k : ℕ) → (load_at seat.loads k).offset ≤ 1024) },
}
