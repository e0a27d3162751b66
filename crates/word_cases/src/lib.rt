// Tables of what kernel words do that need neither text nor a store.
#![tactic(auto)]

#[cfg(test)]
mod data_cells;
#[cfg(test)]
mod growing;
#[cfg(test)]
mod inline_cells;
#[cfg(test)]
mod memory;
#[cfg(test)]
mod open_loads;
#[cfg(test)]
mod return_cells;
#[cfg(test)]
mod tokens;
#[cfg(test)]
mod trying;
#[cfg(test)]
mod typing;
