// Executing a token.
#![tactic(auto)]

pub mod execution;
mod performing;
mod running;
mod tokens;
