// Tables of what the cards answer, through code over any store.
use fault::{Fault, Place};
use std::alloc::{AllocError, Global};
use std::test::Fail;
use store::{MemoryCard, Store, TextCard, first_long_line};
use switched_card::Switched;

const TOLD: Place = Place {
    blk: 3,
    start: 5,
    length: 4,
};

// The number of a refusal at the place told, 0 where there is none; plain numbers, as the tables below list them.
fn number(answer: Result<(), Fault>) -> u8 {
    match answer {
        Ok(()) => 0,
        Err(fault) if fault.place == TOLD => fault.number(),
        Err(_) => 100,
    }
}

// Ones written to block n of a store: the answer, and byte i of block 0 or 1 then, 7 where that is not there.
fn written<S: Store>(store: &mut S, n: u16, block: u16, i: usize) -> (u8, u8) {
    let answer = number(store.write(n, &[1u8; 1024], TOLD));
    let mut bytes = [7u8; 1024];
    let _ = store.read(block, &mut bytes, Place::nowhere());
    (answer, bytes.get(i).copied().unwrap_or(0))
}

fn memory_card(length: usize, n: u16) -> (u8, u8) {
    let mut zeros = [0u8; 2048];
    if length > 2048 {
        return (0, 0);
    }
    written(&mut MemoryCard::new(&mut zeros[..length]), n, 1, 0)
}

fn switched_card(locked: bool, n: u16) -> (u8, u8) {
    let mut zeros = [0u8; 2048];
    let mut card = Switched::new(MemoryCard::new(&mut zeros));
    card.set_locked(locked);
    written(&mut card, n, 1, 0)
}

fn text_card(heap: Global, text: &[u8], n: u16, i: usize) -> Result<(u8, u8), AllocError> {
    let mut card = TextCard::new(heap, text)?;
    Ok(written(&mut card, n, 0, i))
}

#[test]
fn memory_cards(rt: HostRuntime) {
    for (length, n, answer) in [
        (2048, 0, (0, 0)),
        (2048, 1, (0, 1)),
        (2048, 2, (26, 0)),
        (1024, 0, (0, 7)),
        (2047, 0, (26, 7)),
        (0, 0, (26, 7)),
    ] {
        assert!(rt;
            memory_card(length, n) == answer,
            "{length} bytes, block {n}"
        );
    }
    for (locked, n, answer) in [
        (true, 1, (27, 0)),
        (true, 2, (26, 0)),
        (false, 1, (0, 1)),
        (false, 2, (26, 0)),
    ] {
        assert!(rt; switched_card(locked, n) == answer, "block {n}");
    }
}

#[test]
fn text_cards(rt: HostRuntime) -> Result<(), Fail> {
    let text = b"a\n\nbc\n";
    for (n, i, answer) in [
        (0, 0, (27, 97)),
        (1, 1, (26, 32)),
        (0, 64, (27, 32)),
        (0, 128, (27, 98)),
        (0, 130, (27, 32)),
        (0, 1023, (27, 32)),
    ] {
        assert!(rt;
            text_card(rt.alloc(), text, n, i)? == answer,
            "block {n}, byte {i}"
        );
    }
    let lines: [(&[u8], Option<usize>); 3] = [
        (b"", None),
        (
            b"AAAAAAAAAAAAAAAAAAAAAAAAAAAAAAAAAAAAAAAAAAAAAAAAAAAAAAAAAAAAAAAA\nB",
            None,
        ),
        (
            b"B\nAAAAAAAAAAAAAAAAAAAAAAAAAAAAAAAAAAAAAAAAAAAAAAAAAAAAAAAAAAAAAAAAA\n",
            Some(1),
        ),
    ];
    for (text, place) in lines {
        assert!(rt; first_long_line(text) == place);
    }
    Ok(())
}
