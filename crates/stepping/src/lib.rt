// One step of the machine.
#![tactic(auto)]

mod next;
mod positions;
pub mod step;
mod text;
mod token;
mod word;
