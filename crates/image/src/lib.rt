// Bytes and cells of the lent image. A cell lies low byte first. The image is lent at each call, and any length
// serves: a call asks only that the address lies within.
#![tactic(auto)]

ghost use Rattle.std.specs.Prelude.{◌≡◌, ◌+◌, ◌<◌, ◌≤◌, length, replicate};
ghost use Rattle.image.specs.Cells.{cell, cell_at, set_cell};
ghost use Rattle.image.specs.Views.{CarriedByViews, MovedInViews, SeenInViews};
ghost use Rattle.image.specs.Writes.{Moved, moved_up, overwritten};

// The cell at an address.
#[tactic(auto, using(crate::proofs::Laws::seen), unfolding(crate::specs::Cells::cell_at))]
pub fn fetch(image: &[u8], at: usize) -> u16
    requires { at + 1 < length image.now }
    ensures value { result ≡ cell_at image.now at }
    ensures views { SeenInViews image.now at result }
{
    u16::from_le_bytes([image[at], image[at + 1]])
}

// Writes a cell at an address.
#[tactic(auto, using(crate::proofs::Laws::cell_put, crate::proofs::Laws::cell_set, crate::proofs::Laws::carried_cell))]
pub fn store(image: &mut [u8], at: usize, x: u16)
    requires { at + 1 < length image.old }
    ensures after { image.new ≡ set_cell image.old at x }
    ensures written { image.new ≡ overwritten at (cell x) image.old }
    ensures views { CarriedByViews at (cell x) image.old image.new }
{
    image[at..at + 2].copy_from_slice(&x.to_le_bytes());
}

// Writes n bytes of one value from an address on.
#[tactic(auto, using(crate::proofs::Overwriting::overwritten_part, crate::proofs::Laws::carried_fill))]
pub fn fill(image: &mut [u8], at: usize, n: usize, x: u8)
    requires { at + n ≤ length image.old }
    ensures written { image.new ≡ overwritten at (replicate n x) image.old }
    ensures views { CarriedByViews at (replicate n x) image.old image.new }
{
    image[at..at + n].fill(x);
}

// Writes bytes from an address on, and answers the address behind them.
#[tactic(auto, using(crate::proofs::Overwriting::overwritten_part, crate::proofs::Laws::carried_part))]
pub fn append(image: &mut [u8], end: usize, bytes: &[u8]) -> usize
    requires { end + length bytes.now ≤ length image.old }
    ensures behind { result ≡ end + length bytes.now }
    ensures written { image.new ≡ overwritten end bytes.now image.old }
    ensures views { CarriedByViews end bytes.now image.old image.new }
{
    let new_end = end + bytes.len();
    image[end..new_end].copy_from_slice(bytes);
    new_end
}

// Moves n bytes from one address on to another on, one after the other, the lowest first.
#[tactic(auto, using(crate::proofs::Moving::moved_stands, crate::proofs::Moving::moved_views), unfolding(crate::specs::Writes::moved_up))]
pub fn move_up(image: &mut [u8], from: usize, to: usize, n: usize)
    requires { (from + n ≤ length image.old) × (to + n ≤ length image.old) }
    ensures after { image.new ≡ moved_up n from to image.old }
    ensures moved { Moved n from to image.old image.new }
    ensures views { MovedInViews n from to image.old image.new }
{
    // Byte by byte: where the parts overlap, `copy_within` gives other bytes.
    for i in 0..n {
        image[to + i] = image[from + i];
    }
}
