// The kernel words that fetch and store in data space, set BASE, append to data space, and ALLOT.
#![tactic(auto)]

pub mod allot;
pub mod growing;
pub mod reaching;
pub mod space;
pub mod words;
