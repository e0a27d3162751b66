// A machine on which lines are typed as after boot, and what a text tells of it: how a run ends, and what is left.
#![tactic(auto)]

pub mod bench;
pub mod end;
mod left;
