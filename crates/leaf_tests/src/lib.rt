// Tests of the leaf crates. They stand here because a crate with tests is proved twice.
#![tactic(auto)]

ghost use Rattle.std.specs.Prelude.{◌≡◌, nat_lt};

#[cfg(test)]
mod cards;
#[cfg(test)]
mod faults;
#[cfg(test)]
mod images;
#[cfg(test)]
mod kit_refusals;
#[cfg(test)]
mod numerals;
#[cfg(test)]
mod stack_moves;

use store::Store;

// Has the store a block n?
pub fn has_block<S: Store>(store: &S, n: u16) -> bool
    ensures { result ≡ nat_lt n (S.Store.means store.now).count }
{
    n < store.count()
}
