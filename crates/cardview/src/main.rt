// Puts a kit on a card: reads a kit of text lines, copies it block by block to a card file, reads the card back,
// compares, and lists the blocks. And lists the words that a dictionary has at boot.
#![tactic(auto)]

mod listing;
mod words;

use anyhow::{Context, bail};
use kits::KitRefused;
use std::{env, fs};
use store::{MemoryCard, Store, TextCard};

const USAGE: &str = "usage: cardview KIT CARD [words], or cardview words";

fn main(rt: HostRuntime) -> anyhow::Result<()> {
    let rt = &rt;
    let mut args = env::args(rt)?;
    // Behind the program's own name.
    let first = args.nth(1).context(USAGE)?;
    if first.as_str() == "words" {
        return words::list_booted(rt);
    }
    let card = args.next().context(USAGE)?;
    put(rt, first.as_str(), card.as_str())?;
    if args.next().is_some() {
        words::list_booted(rt)?;
    }
    Ok(())
}

// Puts the kit in one file on the card in another.
fn put(rt: &HostRuntime, kit_file: &str, card_file: &str) -> anyhow::Result<()> {
    let kit = kit_in(rt, kit_file)?;
    let blocks = write_card(rt, &kit, card_file)?;
    let lines = list_card(rt, &kit, card_file)?;
    println!(rt;
        "{kit_file}: {blocks} blocks, {lines} lines used; put on {card_file}, read back, and the same"
    )?;
    Ok(())
}

// The kit in a file, as a card, or why it is refused.
fn kit_in(rt: &HostRuntime, file: &str) -> anyhow::Result<TextCard> {
    let text = fs::read(rt, file)?;
    if let Some(refused) = KitRefused::of(text.as_slice()) {
        return Err(refused.into());
    }
    Ok(TextCard::new(rt.alloc(), text.as_slice())?)
}

// Copies a kit to a card file, and answers how many blocks that are.
fn write_card(rt: &HostRuntime, kit: &TextCard, file: &str) -> anyhow::Result<u16> {
    let mut bytes = vec![in rt.alloc(); 0u8; usize::from(kit.count()) * 1024]?;
    let blocks = kits::copy_card(kit, &mut MemoryCard::new(bytes.as_mut_slice()))?;
    fs::write(rt, file, bytes.as_slice())?;
    Ok(blocks)
}

// Reads a card file back, compares it with the kit, lists it, and answers how many lines are used.
fn list_card(rt: &HostRuntime, kit: &TextCard, file: &str) -> anyhow::Result<usize> {
    let mut written = fs::read(rt, file)?;
    let card = MemoryCard::new(written.as_mut_slice());
    if kits::first_difference(kit, &card)?.is_some() || card.count() != kit.count() {
        bail!("the card does not hold what was written");
    }
    listing::list(rt, &card)
}
