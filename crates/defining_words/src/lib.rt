// The words that define: : CREATE VARIABLE CONSTANT VOCABULARY
#![tactic(auto)]

pub mod defining;
mod making;
mod names;
mod space;
pub mod words;
