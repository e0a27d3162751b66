// What the codes of words ask for, and what it means to execute a word by its code.
#![tactic(auto)]

pub mod code;
mod progress;
mod table;

pub use progress::went;
