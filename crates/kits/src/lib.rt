// A kit of text lines: why a text cannot be one, how it is copied to a card and compared, and what its blocks hold.
#![tactic(auto)]

mod copying;
mod listing;
mod refusal;

pub use copying::{copy_card, first_difference};
pub use listing::{cut_length, used_lines};
pub use refusal::KitRefused;
