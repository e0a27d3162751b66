// Lines typed after boot, as tables: how each ends, in how many steps, what it types, and what is left.
#![tactic(auto)]

#[cfg(test)]
mod blocks;
#[cfg(test)]
mod compiling;
#[cfg(test)]
mod control;
#[cfg(test)]
mod data;
#[cfg(test)]
mod ends;
#[cfg(test)]
mod loops;
#[cfg(test)]
mod naming;
#[cfg(test)]
mod search_order;
#[cfg(test)]
mod text;
#[cfg(test)]
mod text_cards;
#[cfg(test)]
mod tokens;
#[cfg(test)]
mod trying;
