// A name as its entry holds it, and the thread that it belongs to.
// A name stays a slice: a search asks two facts of it and a header three, so one struct would ask more of a search than it needs.
ghost use Rattle.std.specs.Prelude.{◌≡◌, ◌%◌, ◌<◌, ◌≤◌, length};
ghost use Rattle.entries.specs.Entries.{spelled};
ghost use Rattle.entries.specs.Threads.{Ascii};
ghost use Rattle.image.specs.Cells.{at};

// A byte of a name as an entry holds it.
#[tactic(auto, using(crate::proofs::Names::spelling))]
pub fn held_byte(name: &[u8], i: usize) -> u8
    requires { (i < length name.now) × (Ascii name.now) }
    ensures { result ≡ at (spelled name.now) i }
{
    let b = name[i].to_ascii_uppercase();
    if i + 1 == name.len() { b + 128 } else { b }
}

// The thread of a name.
pub fn thread_of(name: &[u8]) -> u16
    requires { (1 ≤ length name.now) × (Ascii name.now) }
    ensures { result ≡ at (spelled name.now) 0 % 4 }
{
    u16::from(held_byte(name, 0) % 4)
}
