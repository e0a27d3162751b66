// Lists the words of a dictionary, by vocabulary and thread, youngest first. Links are walked by loops, as in the library.
ghost use Rattle.std.specs.Prelude.{◌+◌, ◌≤◌, length};
ghost use Rattle.entries.specs.Entries.{first_at};

use entries::Entries;
use fault::Place;
use std::io;

// The words that boot leaves. Never inlined: what it holds on the stack is not to lie there while a kit is put on a card.
#[inline(never)]
pub fn list_booted(rt: &HostRuntime) -> anyhow::Result<()> {
    // On the heap: the stack may be smaller than an image.
    let mut bytes = vec![in rt.alloc(); 0u8; 65536]?;
    let image = bytes.as_mut_array().unwrap();
    let d = kernel::boot(image);
    list_vocabularies(rt, &d.entries(image), d.names.voclink)
}

// Every vocabulary on the chain, the youngest first.
fn list_vocabularies(rt: &HostRuntime, entries: &Entries<'_>, voclink: u16) -> anyhow::Result<()>
    requires { length entries.now ≤ 32768 }
{
    let dp = entries.end();
    let mut before = dp;
    let mut link = voclink;
    'chain: while let Some(k) = dictionary::vocabularies::next_vocabulary(
        dp,
        before,
        link,
        Place::nowhere(),
    )? {
        list_vocabulary(rt, entries, k - 8)?;
        before = k;
        link = entries.cell(k);
    }
    Ok(())
}

// The four threads of a vocabulary.
fn list_vocabulary(rt: &HostRuntime, entries: &Entries<'_>, vocabulary: u16) -> anyhow::Result<()>
    requires { (256 ≤ vocabulary) × ((vocabulary + 8 ≤ length entries.now) × (length entries.now ≤ 32768)) }
{
    println!(rt; "vocabulary {vocabulary}")?;
    let heads = entries.heads(vocabulary);
    for (thread, &head) in heads.iter().enumerate() {
        println!(rt; " thread {thread}")?;
        list_thread(rt, entries, head)?;
    }
    Ok(())
}

// The entries of a thread from a head down.
fn list_thread(rt: &HostRuntime, entries: &Entries<'_>, head: u16) -> anyhow::Result<()>
    requires { length entries.now ≤ 32768 }
{
    let mut before = entries.end();
    let mut link = head;
    'thread: while let Some(e) = entries.next_in_thread(before, link, Place::nowhere())? {
        list_entry(rt, entries, e)?;
        before = e;
        link = entries.cell(e);
    }
    Ok(())
}

// The address, number and flag of an entry, and its name.
#[tactic(auto, unfolding(entries::specs::Entries::first_at))]
fn list_entry(rt: &HostRuntime, entries: &Entries<'_>, e: u16) -> io::Result<()>
    requires { (256 ≤ e) × ((first_at entries.now e + 2 ≤ length entries.now) × (length entries.now ≤ 32768)) }
{
    let number = entries.cell(entries.token_of(e));
    let flag = if entries.is_immediate(e) {
        " immediate"
    } else {
        ""
    };
    print!(rt; "  {e:>5} {number:>3} ")?;
    // By address: an entry is read a byte at a time.
    for a in e + 3..entries.token_of(e) {
        rt.print(char::from(entries.byte(a) % 128))?;
    }
    println!(rt; "{flag}")
}
