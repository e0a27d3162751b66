// The words of the inner interpreter: those that only a definition holds, and what the token of each kind of word does; and >BODY.
#![tactic(auto)]

pub mod entering;
pub mod inline;
pub mod returning;
pub mod tokens;
pub mod vocabulary;
pub mod words;
