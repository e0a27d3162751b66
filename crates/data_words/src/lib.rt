// The kernel words on data cells alone.
#![tactic(auto)]

pub mod dividing;
pub mod leaving;
pub mod moving;
pub mod one_cell;
pub mod two_cells;
pub mod words;
