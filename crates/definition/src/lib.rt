// What the machine does, as a definition that computes, and the registers that the code and the definition share.
#![tactic(auto)]

pub mod clearing;
pub mod free;
pub mod places;
pub mod ranged;
pub mod registers;
pub mod running;
pub mod text;
