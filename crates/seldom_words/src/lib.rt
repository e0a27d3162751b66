// The words that run seldom, by their code.
#![tactic(auto)]

mod building;
mod growing;
mod typing;
pub mod words;
