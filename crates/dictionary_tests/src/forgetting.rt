// FORGET. V begins at 1618: its heads are 1628 to 1635, its link is 1636, and it ends at 1638.
use super::moves::Move::*;
use super::sessions::Answer::*;
use super::sessions::{BOOT, Left, Session, hold};

static WORDS: [Session; 11] = [
    Session {
        moves: &[Create("A"), Forget("A")],
        refused: 0,
        left: BOOT,
        names: &[("A", Missing), ("DUP", At(282))],
    },
    Session {
        moves: &[Create("A"), Create("B"), Forget("A")],
        refused: 0,
        left: BOOT,
        names: &[("A", Missing), ("B", Missing)],
    },
    Session {
        moves: &[Create("A"), Create("B"), Forget("B")],
        refused: 0,
        left: Left {
            dp: 1630,
            newest: 1620,
            ..BOOT
        },
        names: &[("A", At(1620)), ("B", Missing)],
    },
    // The younger of two goes, and the older is seen again.
    Session {
        moves: &[Create("A"), Create("A"), Forget("A")],
        refused: 0,
        left: Left {
            dp: 1630,
            newest: 1620,
            ..BOOT
        },
        names: &[("A", At(1620))],
    },
    Session {
        moves: &[Create("DUP"), Forget("DUP")],
        refused: 0,
        left: BOOT,
        names: &[("DUP", At(282))],
    },
    // All four threads move down: A to D begin with 65 to 68.
    Session {
        moves: &[
            Create("A"),
            Create("A"),
            Create("B"),
            Create("C"),
            Create("D"),
            Forget("A"),
        ],
        refused: 0,
        left: Left {
            dp: 1630,
            newest: 1620,
            ..BOOT
        },
        names: &[
            ("A", At(1620)),
            ("B", Missing),
            ("C", Missing),
            ("D", Missing),
            ("DUP", At(282)),
        ],
    },
    // HERE goes back to where it was as the word began.
    Session {
        moves: &[Create("A"), Allot(10), Create("B"), Allot(5), Forget("B")],
        refused: 0,
        left: Left {
            dp: 1630,
            here: 34058,
            newest: 1620,
            ..BOOT
        },
        names: &[("A", At(1620))],
    },
    Session {
        moves: &[
            Allot(100),
            Create("A"),
            Allot(10),
            Create("B"),
            Allot(5),
            Forget("A"),
        ],
        refused: 0,
        left: Left {
            here: 34148,
            ..BOOT
        },
        names: &[("A", Missing), ("B", Missing)],
    },
    Session {
        moves: &[Colon("A"), Append(4), Semicolon, Create("B"), Forget("A")],
        refused: 0,
        left: BOOT,
        names: &[("A", Missing)],
    },
    // A word of a full dictionary.
    Session {
        moves: &[Append(31138), Create("A"), Forget("A")],
        refused: 0,
        left: Left { dp: 32756, ..BOOT },
        names: &[("A", Missing)],
    },
    // What is begun behind it takes its place.
    Session {
        moves: &[Create("A"), Create("B"), Forget("A"), Create("C")],
        refused: 0,
        left: Left {
            dp: 1630,
            newest: 1620,
            ..BOOT
        },
        names: &[("A", Missing), ("B", Missing), ("C", At(1620))],
    },
];

static REFUSED: [Session; 6] = [
    Session {
        moves: &[Forget("A")],
        refused: 7,
        left: BOOT,
        names: &[],
    },
    Session {
        moves: &[Forget("DUP")],
        refused: 23,
        left: BOOT,
        names: &[("DUP", At(282))],
    },
    Session {
        moves: &[Forget("FORTH")],
        refused: 23,
        left: BOOT,
        names: &[("FORTH", At(258))],
    },
    Session {
        moves: &[Forget("(.\")")],
        refused: 23,
        left: BOOT,
        names: &[("(.\")", At(1607))],
    },
    // CURRENT alone is searched: V itself is a word of FORTH.
    Session {
        moves: &[Vocabulary("V"), Seek(1628), Definitions, Forget("V")],
        refused: 7,
        left: Left {
            dp: 1638,
            newest: 1620,
            voclink: 1636,
            context: 1628,
            current: 1628,
            ..BOOT
        },
        names: &[("V", At(1620))],
    },
    Session {
        moves: &[
            Vocabulary("V"),
            Create("A"),
            Seek(1628),
            Forget("a"),
            Forget("A"),
        ],
        refused: 7,
        left: Left {
            dp: 1638,
            newest: 1620,
            voclink: 1636,
            context: 1628,
            ..BOOT
        },
        names: &[("A", Missing)],
    },
];

static VOCABULARIES: [Session; 13] = [
    Session {
        moves: &[Vocabulary("V"), Forget("V")],
        refused: 0,
        left: BOOT,
        names: &[("V", Missing)],
    },
    // CONTEXT becomes FORTH with its vocabulary gone.
    Session {
        moves: &[Vocabulary("V"), Seek(1628), Forget("V")],
        refused: 0,
        left: BOOT,
        names: &[("V", Missing)],
    },
    Session {
        moves: &[
            Vocabulary("V"),
            Seek(1628),
            Definitions,
            Create("A"),
            Seek(270),
            Definitions,
            Forget("V"),
        ],
        refused: 0,
        left: BOOT,
        names: &[("V", Missing), ("A", Missing)],
    },
    Session {
        moves: &[Vocabulary("V"), Vocabulary("X"), Forget("V")],
        refused: 0,
        left: BOOT,
        names: &[("V", Missing), ("X", Missing)],
    },
    Session {
        moves: &[Vocabulary("V"), Vocabulary("X"), Forget("X")],
        refused: 0,
        left: Left {
            dp: 1638,
            newest: 1620,
            voclink: 1636,
            ..BOOT
        },
        names: &[("V", At(1620)), ("X", Missing)],
    },
    // CONTEXT stays where its vocabulary does, right below the word.
    Session {
        moves: &[Vocabulary("V"), Vocabulary("X"), Seek(1628), Forget("X")],
        refused: 0,
        left: Left {
            dp: 1638,
            newest: 1620,
            voclink: 1636,
            context: 1628,
            ..BOOT
        },
        names: &[("X", Missing)],
    },
    // A vocabulary that is younger than the word.
    Session {
        moves: &[
            Vocabulary("V"),
            Create("A"),
            Vocabulary("X"),
            Seek(1660),
            Forget("A"),
        ],
        refused: 0,
        left: Left {
            dp: 1638,
            newest: 1620,
            voclink: 1636,
            ..BOOT
        },
        names: &[("V", At(1620)), ("A", Missing), ("X", Missing)],
    },
    // A vocabulary within a vocabulary: CURRENT stays.
    Session {
        moves: &[
            Vocabulary("V"),
            Seek(1628),
            Definitions,
            Vocabulary("X"),
            Seek(1648),
            Forget("X"),
        ],
        refused: 0,
        left: Left {
            dp: 1638,
            newest: 1620,
            voclink: 1636,
            current: 1628,
            ..BOOT
        },
        names: &[("V", At(1620)), ("X", Missing)],
    },
    // The heads of FORTH move down where the word is V's.
    Session {
        moves: &[
            Vocabulary("V"),
            Seek(1628),
            Definitions,
            Create("A"),
            Seek(270),
            Definitions,
            Create("B"),
            Seek(1628),
            Definitions,
            Forget("A"),
        ],
        refused: 0,
        left: Left {
            dp: 1638,
            newest: 1620,
            voclink: 1636,
            context: 1628,
            current: 1628,
            ..BOOT
        },
        names: &[("A", Missing), ("B", Missing), ("V", At(1620))],
    },
    // And V's where the word is FORTH's: to 0.
    Session {
        moves: &[
            Vocabulary("V"),
            Create("B"),
            Seek(1628),
            Definitions,
            Create("A"),
            Seek(270),
            Definitions,
            Forget("B"),
            Seek(1628),
        ],
        refused: 0,
        left: Left {
            dp: 1638,
            newest: 1620,
            voclink: 1636,
            context: 1628,
            ..BOOT
        },
        names: &[("A", Missing), ("B", Missing)],
    },
    // Or to an older word of V, which is then the newest.
    Session {
        moves: &[
            Vocabulary("V"),
            Seek(1628),
            Definitions,
            Create("A"),
            Seek(270),
            Definitions,
            Create("B"),
            Seek(1628),
            Definitions,
            Create("A"),
            Seek(270),
            Definitions,
            Forget("B"),
            Seek(1628),
        ],
        refused: 0,
        left: Left {
            dp: 1650,
            newest: 1640,
            voclink: 1636,
            context: 1628,
            ..BOOT
        },
        names: &[("A", At(1640)), ("B", Missing)],
    },
    // A vocabulary dropped is out of the order, and its place is free.
    Session {
        moves: &[
            Vocabulary("V"),
            Seek(1628),
            Forget("V"),
            Vocabulary("X"),
            Seek(1628),
        ],
        refused: 0,
        left: Left {
            dp: 1638,
            newest: 1620,
            voclink: 1636,
            context: 1628,
            ..BOOT
        },
        names: &[("V", Missing), ("X", At(1620))],
    },
    Session {
        moves: &[Vocabulary("V"), Forget("V"), Seek(1628)],
        refused: 22,
        left: BOOT,
        names: &[],
    },
];

#[test]
fn words_are_forgotten(rt: HostRuntime) {
    hold(&rt, &WORDS);
}

#[test]
fn words_that_stay(rt: HostRuntime) {
    hold(&rt, &REFUSED);
}

#[test]
fn vocabularies_are_forgotten(rt: HostRuntime) {
    hold(&rt, &VOCABULARIES);
}
