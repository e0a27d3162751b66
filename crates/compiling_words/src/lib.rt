// Words that end a definition, append to it, or change the newest entry.
#![tactic(auto)]

mod changes;
mod compiled;
mod flow;
pub mod words;
