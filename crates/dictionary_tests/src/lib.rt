// A search, and sessions on the dictionary that boot leaves, each with what it must leave. They stand here because a crate with
// tests is proved twice.
#![tactic(auto)]

#[cfg(test)]
mod broken;
#[cfg(test)]
mod forgetting;
#[cfg(test)]
mod growing;
#[cfg(test)]
mod moves;
#[cfg(test)]
mod searching;
#[cfg(test)]
mod sessions;
