// Entries begun and joined, vocabularies and the search order.
use super::moves::Move::*;
use super::sessions::Answer::*;
use super::sessions::{BOOT, Left, Session, hold};

static ENTRIES: [Session; 11] = [
    Session {
        moves: &[],
        refused: 0,
        left: BOOT,
        names: &[
            ("FORTH", At(258)),
            ("dup", At(282)),
            ("DROP", At(294)),
            ("(.\")", At(1607)),
            ("SQ", Missing),
        ],
    },
    Session {
        moves: &[Create("A")],
        refused: 0,
        left: Left {
            dp: 1630,
            newest: 1620,
            ..BOOT
        },
        names: &[("A", At(1620)), ("a", At(1620)), ("AA", Missing)],
    },
    Session {
        moves: &[Create("A"), Create("B")],
        refused: 0,
        left: Left {
            dp: 1642,
            newest: 1632,
            ..BOOT
        },
        names: &[("A", At(1620)), ("B", At(1632))],
    },
    // The youngest of two.
    Session {
        moves: &[Create("A"), Create("a")],
        refused: 0,
        left: Left {
            dp: 1642,
            newest: 1632,
            ..BOOT
        },
        names: &[("A", At(1632))],
    },
    // A kernel word hidden.
    Session {
        moves: &[Create("DUP")],
        refused: 0,
        left: Left {
            dp: 1632,
            newest: 1620,
            ..BOOT
        },
        names: &[("DUP", At(1620)), ("DROP", At(294))],
    },
    Session {
        moves: &[Create("ABCDEFGHIJKLMNOPQRSTUVWXYZABCDE")],
        refused: 0,
        left: Left {
            dp: 1660,
            newest: 1620,
            ..BOOT
        },
        names: &[("ABCDEFGHIJKLMNOPQRSTUVWXYZABCDE", At(1620))],
    },
    Session {
        moves: &[Create("ABCDEFGHIJKLMNOPQRSTUVWXYZABCDEF")],
        refused: 5,
        left: BOOT,
        names: &[("ABCDEFGHIJKLMNOPQRSTUVWXYZABCDEF", Missing)],
    },
    Session {
        moves: &[Create("")],
        refused: 5,
        left: BOOT,
        names: &[],
    },
    Session {
        moves: &[Vocabulary("V")],
        refused: 0,
        left: Left {
            dp: 1638,
            newest: 1620,
            voclink: 1636,
            ..BOOT
        },
        names: &[("V", At(1620))],
    },
    Session {
        moves: &[Vocabulary("V"), Vocabulary("X")],
        refused: 0,
        left: Left {
            dp: 1658,
            newest: 1640,
            voclink: 1656,
            ..BOOT
        },
        names: &[("V", At(1620)), ("X", At(1640))],
    },
    Session {
        moves: &[Create("A"), Allot(10), Create("B"), Allot(5)],
        refused: 0,
        left: Left {
            dp: 1642,
            here: 34063,
            newest: 1632,
            ..BOOT
        },
        names: &[],
    },
];

static ORDERS: [Session; 8] = [
    Session {
        moves: &[Vocabulary("V"), Seek(1628)],
        refused: 0,
        left: Left {
            dp: 1638,
            newest: 1620,
            voclink: 1636,
            context: 1628,
            ..BOOT
        },
        names: &[("V", At(1620)), ("DUP", At(282))],
    },
    Session {
        moves: &[Vocabulary("V"), Seek(1628), Definitions, Create("DUP")],
        refused: 0,
        left: Left {
            dp: 1652,
            newest: 1640,
            voclink: 1636,
            context: 1628,
            current: 1628,
            ..BOOT
        },
        names: &[("DUP", At(1640)), ("DROP", At(294))],
    },
    // CONTEXT hides CURRENT.
    Session {
        moves: &[
            Vocabulary("V"),
            Seek(1628),
            Definitions,
            Create("DUP"),
            Create("A"),
            Seek(270),
        ],
        refused: 0,
        left: Left {
            dp: 1664,
            newest: 1654,
            voclink: 1636,
            current: 1628,
            ..BOOT
        },
        names: &[("DUP", At(282)), ("A", At(1654))],
    },
    // A vocabulary out of the order.
    Session {
        moves: &[
            Vocabulary("V"),
            Seek(1628),
            Definitions,
            Create("A"),
            Seek(270),
            Definitions,
        ],
        refused: 0,
        left: Left {
            dp: 1650,
            newest: 1640,
            voclink: 1636,
            ..BOOT
        },
        names: &[("A", Missing)],
    },
    // `:` searches CURRENT first.
    Session {
        moves: &[Vocabulary("V"), Seek(1628), Colon("A")],
        refused: 0,
        left: Left {
            dp: 1648,
            newest: 1620,
            voclink: 1636,
            opened: 1640,
            ..BOOT
        },
        names: &[("A", Missing)],
    },
    Session {
        moves: &[Seek(282)],
        refused: 22,
        left: BOOT,
        names: &[],
    },
    Session {
        moves: &[Vocabulary("V"), Seek(1636)],
        refused: 22,
        left: Left {
            dp: 1638,
            newest: 1620,
            voclink: 1636,
            ..BOOT
        },
        names: &[],
    },
    // Each word joins the vocabulary that was CURRENT then.
    Session {
        moves: &[
            Vocabulary("V"),
            Create("A"),
            Seek(1628),
            Definitions,
            Create("A"),
            Seek(270),
        ],
        refused: 0,
        left: Left {
            dp: 1662,
            newest: 1652,
            voclink: 1636,
            current: 1628,
            ..BOOT
        },
        names: &[("A", At(1640))],
    },
];

static COLON: [Session; 9] = [
    Session {
        moves: &[Colon("SQ")],
        refused: 0,
        left: Left {
            dp: 1629,
            opened: 1620,
            ..BOOT
        },
        names: &[("SQ", Missing)],
    },
    Session {
        moves: &[Colon("SQ"), Append(6), Semicolon],
        refused: 0,
        left: Left {
            dp: 1635,
            newest: 1620,
            ..BOOT
        },
        names: &[("SQ", At(1620))],
    },
    Session {
        moves: &[Colon("SQ"), Append(6), GiveUp],
        refused: 0,
        left: BOOT,
        names: &[("SQ", Missing)],
    },
    // The older word of that name is seen while the new one is open.
    Session {
        moves: &[Create("A"), Colon("A")],
        refused: 0,
        left: Left {
            dp: 1640,
            newest: 1620,
            opened: 1632,
            ..BOOT
        },
        names: &[("A", At(1620))],
    },
    Session {
        moves: &[Create("A"), Colon("A"), Append(4), GiveUp],
        refused: 0,
        left: Left {
            dp: 1630,
            newest: 1620,
            ..BOOT
        },
        names: &[("A", At(1620))],
    },
    Session {
        moves: &[Colon("SQ"), Append(6), GiveUp, Create("B")],
        refused: 0,
        left: Left {
            dp: 1630,
            newest: 1620,
            ..BOOT
        },
        names: &[("SQ", Missing), ("B", At(1620))],
    },
    Session {
        moves: &[GiveUp],
        refused: 0,
        left: BOOT,
        names: &[],
    },
    Session {
        moves: &[Colon("A"), Colon("B")],
        refused: 9,
        left: Left {
            dp: 1628,
            opened: 1620,
            ..BOOT
        },
        names: &[],
    },
    Session {
        moves: &[Semicolon],
        refused: 8,
        left: BOOT,
        names: &[],
    },
];

// 31,150 bytes are left from boot's DP up to 32,768.
static FULL: [Session; 9] = [
    Session {
        moves: &[Append(31150)],
        refused: 0,
        left: Left { dp: 32768, ..BOOT },
        names: &[("DUP", At(282))],
    },
    Session {
        moves: &[Append(31151)],
        refused: 20,
        left: BOOT,
        names: &[],
    },
    Session {
        moves: &[Append(31138), Create("A")],
        refused: 0,
        left: Left {
            dp: 32768,
            newest: 32758,
            ..BOOT
        },
        names: &[("A", At(32758))],
    },
    Session {
        moves: &[Append(31139), Create("A")],
        refused: 20,
        left: Left { dp: 32757, ..BOOT },
        names: &[("A", Missing)],
    },
    Session {
        moves: &[Append(31130), Vocabulary("V")],
        refused: 0,
        left: Left {
            dp: 32768,
            newest: 32750,
            voclink: 32766,
            ..BOOT
        },
        names: &[("V", At(32750))],
    },
    Session {
        moves: &[Append(31131), Vocabulary("V")],
        refused: 20,
        left: Left { dp: 32749, ..BOOT },
        names: &[("V", Missing)],
    },
    Session {
        moves: &[Append(31140), Colon("A"), Append(1)],
        refused: 20,
        left: Left {
            dp: 32768,
            opened: 32760,
            ..BOOT
        },
        names: &[],
    },
    Session {
        moves: &[Append(31141), Colon("A")],
        refused: 20,
        left: Left { dp: 32759, ..BOOT },
        names: &[],
    },
    Session {
        moves: &[Allot(31487), Create("A"), Allot(1)],
        refused: 21,
        left: Left {
            dp: 1630,
            here: 65535,
            newest: 1620,
            ..BOOT
        },
        names: &[("A", At(1620))],
    },
];

#[test]
fn entries_join(rt: HostRuntime) {
    hold(&rt, &ENTRIES);
}

#[test]
fn vocabularies_are_searched_in_order(rt: HostRuntime) {
    hold(&rt, &ORDERS);
}

#[test]
fn open_entries_join_or_go(rt: HostRuntime) {
    hold(&rt, &COLON);
}

#[test]
fn full_dictionaries_refuse(rt: HostRuntime) {
    hold(&rt, &FULL);
}
