// The words of control structures: they append a branch to the open definition, and keep marks of what is unfinished.
#![tactic(auto)]

mod building;
mod marks;
mod structures;
pub mod words;
