// Prints what a card holds.
use fault::Place;
use std::io;
use store::Store;

// Block numbers are counted: a store is asked by them. A line for each block: its number, its first line and how many lines are used; answers how many are in all.
// Never inlined: its buffer would lie on the stack while the files are opened.
#[inline(never)]
pub fn list<S: Store>(rt: &HostRuntime, card: &S) -> anyhow::Result<usize> {
    let mut buffer = [0u8; 1024];
    let mut used = 0usize;
    for n in 0..card.count() {
        card.read(n, &mut buffer, Place::nowhere())?;
        used = used.saturating_add(list_block(rt, n, &buffer)?);
    }
    Ok(used)
}

fn list_block(rt: &HostRuntime, n: u16, block: &[u8; 1024]) -> io::Result<usize> {
    let lines = kits::used_lines(block);
    let length = kits::cut_length(&block[..64]);
    print!(rt; "block {n}: ")?;
    for &byte in &block[..length] {
        rt.print(shown(byte))?;
    }
    println!(rt; "  [{lines} lines]")?;
    Ok(lines)
}

// A printing character as it is, any other byte as a point.
fn shown(byte: u8) -> char {
    match byte {
        b' '..=b'~' => char::from(byte),
        _ => '.',
    }
}
