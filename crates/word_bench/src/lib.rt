// A machine on which tables of kernel words are tried: a row tells it in words, a word is done, and what is left is compared with what a
// row tells. The state of the machine, which a step asks for before its word, is no part of it.
#![tactic(auto)]

pub mod bench;
mod performing;
mod reading;
