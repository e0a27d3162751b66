// The dictionary: entries, threads and vocabularies, as the bytes of the image up to DP. Registers hold no lent memory, so the image
// comes with each call, and so does the place that a refusal is told.
#![tactic(auto)]

mod change;
pub mod code;
mod define;
mod grow;
mod order;
pub mod registers;
pub mod vocabularies;

pub use define::Header;
pub use order::FORTH;
