// Reading the dictionary: the entries in a lent image up to DP, and the threads that link them.
#![tactic(auto)]

mod entry;
mod name;
mod thread;

pub use entry::{Entries, IMMEDIATE};
pub use name::{held_byte, thread_of};
