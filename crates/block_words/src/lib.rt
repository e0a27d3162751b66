// The block buffer over any store: bringing a block in, the words BLOCK, UPDATE and FLUSH, and the open loads: LOAD opens one, and where
// its text is at an end its caller goes on.
#![tactic(auto)]

pub mod bringing;
pub mod loading;
mod stack;
pub mod words;
