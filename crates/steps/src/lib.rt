// The questions and the moves that the words share. Registers, image and stacks stay apart: a signature shows which of them a word may
// read or write, and registers hold no lent memory.
#![tactic(auto)]

pub mod appending;
pub mod asking;
pub mod base;
pub mod cells;
pub mod data_space;
pub mod faults;
pub mod inside;
pub mod pointer;
pub mod progress;
pub mod seat_dictionary;
pub mod tokens;
