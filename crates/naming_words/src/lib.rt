// The words that take a name or a text, as one group.
#![tactic(auto)]

mod entry;
mod forgetting;
pub mod naming;
mod quoting;
mod ticking;
pub mod words;
