// Words and strings taken from the text, the line or the block buffer; and what a word of it is: a token or a number.
#![tactic(auto)]

pub mod kinds;
pub mod name;
pub mod names;
mod scanning;
pub mod searching;
pub mod strings;
pub mod word;
pub mod words;
