// Trimming the dictionary at an entry: what FORGET does.
#![tactic(auto)]

mod chain;
mod forgetting;
mod heads;

pub use forgetting::{can_trim, find, trim};
