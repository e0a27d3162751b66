// Copying one card to another through the store's calls, and comparing two. Block numbers are counted: a store is asked by them.
ghost use Rattle.std.specs.Prelude.{◌≡◌, ◌<◌, true};
ghost use Rattle.kits.specs.Copies.{Compares, Copies, CopiesBlock, FindsDifference};

use fault::{Fault, Place, Reason};
use store::Store;

// Copies block n, which both cards have, by way of a buffer.
fn copy_block<S: Store, T: Store>(
    source: &S,
    target: &mut T,
    n: u16,
    buffer: &mut [u8; 1024],
) -> Result<(), Fault>
    requires n_bound { (n < (S.Store.means source.now).count) × (n < (T.Store.means target.old).count) }
    requires target_value { (T.Store.means target.old).writable ≡ true }
    ensures { CopiesBlock n (S.Store.means source.now) (T.Store.means target.old) result (T.Store.means target.new) }
{
    let at = Place::nowhere();
    source.read(n, buffer, at)?;
    target.write(n, buffer, at)
}

// Copies every block of the source to the target; answers how many.
pub fn copy_card<S: Store, T: Store>(source: &S, target: &mut T) -> Result<u16, Fault>
    ensures { Copies (S.Store.means source.now) (T.Store.means target.old) result (T.Store.means target.new) }
{
    let count = source.count();
    if target.count() < count {
        return Err(Fault::new(Reason::NoBlock, Place::nowhere()));
    }
    if !target.writable() {
        return Err(Fault::new(Reason::NotWritable, Place::nowhere()));
    }
    let mut buffer = [0u8; 1024];
    for n in 0..count {
        copy_block(source, target, n, &mut buffer)?;
    }
    Ok(count)
}

// Are the blocks n, which both cards have, the same?
fn same_block<A: Store, B: Store>(
    a: &A,
    b: &B,
    n: u16,
    one: &mut [u8; 1024],
    other: &mut [u8; 1024],
) -> Result<bool, Fault>
    requires { (n < (A.Store.means a.now).count) × (n < (B.Store.means b.now).count) }
    ensures { Compares n (A.Store.means a.now) (B.Store.means b.now) result }
{
    let at = Place::nowhere();
    a.read(n, one, at)?;
    b.read(n, other, at)?;
    Ok(one == other)
}

// The first block in which two cards differ, among those that both have.
pub fn first_difference<A: Store, B: Store>(a: &A, b: &B) -> Result<Option<u16>, Fault>
    ensures { FindsDifference (A.Store.means a.now) (B.Store.means b.now) result }
{
    let mut one = [0u8; 1024];
    let mut other = [0u8; 1024];
    for n in 0..a.count().min(b.count()) {
        if !same_block(a, b, n, &mut one, &mut other)? {
            return Ok(Some(n));
        }
    }
    Ok(None)
}
