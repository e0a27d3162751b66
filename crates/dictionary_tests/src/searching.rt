// A search in a dictionary written byte for byte.
use entries::Entries;
use fault::Place;

// A dictionary of one thread: AB at 258, A (immediate) at 270. The heads of its vocabulary lie at 280, and that of the thread is the
// second; DP is 288.
fn written() -> [u8; 65536] {
    let mut image = [0; 65536];
    image[258..269].copy_from_slice(&[0, 0, 130, 65, 194, 7, 0, 0, 133, 0, 0]);
    image[270..279].copy_from_slice(&[2, 1, 193, 193, 9, 0, 0, 133, 0]);
    image[282..284].copy_from_slice(&[14, 1]);
    image
}

// What a search answers where the low bytes of the head and of A's link are these: an entry, 0 where there is none, or a fault's
// number.
fn found(head: u8, link: u8, name: &str) -> u16 {
    if !(1..=31).contains(&name.len()) || !name.is_ascii() {
        return 100;
    }
    let mut image = written();
    image[282] = head;
    image[270] = link;
    let entries = Entries::new(&image, 288);
    match entries.search_vocabulary(280, name.as_bytes(), Place::nowhere()) {
        Ok(found) => found.unwrap_or(0),
        Err(fault) => u16::from(fault.number()),
    }
}

#[test]
fn searches(rt: HostRuntime) {
    for (head, link, name, answer) in [
        (14, 2, "ab", 258),
        (14, 2, "a", 270),
        // A head that leaves A out.
        (2, 2, "A", 0),
        // A link to itself.
        (14, 14, "AB", 6),
    ] {
        assert!(rt; found(head, link, name) == answer, "{name}");
    }
}

#[test]
fn tells_an_entry(rt: HostRuntime) {
    let image = written();
    let entries = Entries::new(&image, 288);
    let told = (
        entries.token_of(270),
        entries.is_immediate(270),
        entries.is_immediate(258),
    );
    assert!(rt; told == (274, true, false));
}
