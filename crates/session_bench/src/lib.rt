// What tables tell of lines typed after boot: how each ends, in how many steps, what it types, and what is left.
#![tactic(auto)]

pub mod sessions;
