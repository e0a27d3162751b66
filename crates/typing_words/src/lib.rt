// The kernel words that type.
#![tactic(auto)]

pub mod output;
pub mod typing;
pub mod words;
