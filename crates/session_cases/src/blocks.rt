// Blocks: the buffer, and text that is loaded.
use super::trying::{rows_hold, sessions_hold};
use line_bench::end::End::{BlockFault, Fault, Finished};
use session_bench::sessions::Move::{Locks, Types};
use session_bench::sessions::{Row, Session};

static BUFFER: &[Row] = &[
    ("0 BLOCK 3 BLOCK", Finished, 5, "", "33024 33024 HELD: 3"),
    ("BLOCK", Fault(12, 0, 5), 1, "", ""),
    (
        "3 BLOCK 65 SWAP C! UPDATE FLUSH 3 BLOCK C@",
        Finished,
        11,
        "",
        "65 HELD: 3",
    ),
    (
        "3 BLOCK 65 SWAP C! 4 BLOCK DROP 3 BLOCK C@",
        Finished,
        12,
        "",
        "0 HELD: 3",
    ),
    (
        "3 BLOCK 65 SWAP C! UPDATE 4 BLOCK DROP 3 BLOCK C@",
        Finished,
        13,
        "",
        "65 HELD: 3",
    ),
    (
        "3 BLOCK 65 SWAP C! UPDATE 16 BLOCK",
        Fault(26, 29, 5),
        8,
        "",
        "HELD: 3",
    ),
    (
        "3 BLOCK 65 SWAP C! UPDATE 3 BLOCK C@",
        Finished,
        10,
        "",
        "65 HELD: 3 UPDATED: 1",
    ),
    ("UPDATE FLUSH", Finished, 3, "", ""),
    ("3 BLOCK DROP FLUSH", Finished, 5, "", ""),
    ("LOAD", Fault(12, 0, 4), 1, "", ""),
    (
        ": X LOAD ; X",
        Fault(10, 11, 1),
        5,
        "",
        "DP: 1632 NEWEST: 1620",
    ),
    (
        ": X LOAD ; 0 X",
        Fault(10, 13, 1),
        6,
        "",
        "DP: 1632 NEWEST: 1620",
    ),
    ("16 LOAD", BlockFault(16, 26, 3, 4), 3, "", ""),
];

static LOADS: &[Session] = &[
    Session {
        blocks: &[(1, 0, "2 3 + .")],
        moves: &[Types("1 LOAD", Finished, 9, "5 ")],
        left: "HELD: 1",
    },
    Session {
        blocks: &[(1, 0, "2 3 + .")],
        moves: &[Types("1 BLOCK DROP 1 LOAD", Finished, 11, "5 ")],
        left: "HELD: 1",
    },
    Session {
        blocks: &[(1, 0, "2 LOAD 7 ."), (2, 0, "5 .")],
        moves: &[Types("1 LOAD", Finished, 14, "5 7 ")],
        left: "HELD: 1",
    },
    Session {
        blocks: &[(1, 0, "FLUSH 9 .")],
        moves: &[Types("1 LOAD", Finished, 9, "9 ")],
        left: "HELD: 1",
    },
    Session {
        blocks: &[(1, 0, "2 BLOCK DROP 9 .")],
        moves: &[Types("1 LOAD", Finished, 11, "9 ")],
        left: "HELD: 1",
    },
    Session {
        blocks: &[
            (1, 0, "2 LOAD"),
            (2, 0, "3 LOAD"),
            (3, 0, "4 LOAD"),
            (4, 0, "5 LOAD"),
            (5, 0, "6 LOAD"),
            (6, 0, "7 LOAD"),
            (7, 0, "8 LOAD"),
            (8, 0, "DEPTH ."),
        ],
        moves: &[Types("1 LOAD", Finished, 42, "0 ")],
        left: "HELD: 1",
    },
    Session {
        blocks: &[
            (1, 0, "2 LOAD"),
            (2, 0, "3 LOAD"),
            (3, 0, "4 LOAD"),
            (4, 0, "5 LOAD"),
            (5, 0, "6 LOAD"),
            (6, 0, "7 LOAD"),
            (7, 0, "8 LOAD"),
            (8, 0, "9 LOAD"),
        ],
        moves: &[Types("1 LOAD", BlockFault(8, 25, 2, 4), 26, "")],
        left: "HELD: 8",
    },
    Session {
        blocks: &[(1, 0, "1 LOAD")],
        moves: &[Types("1 LOAD", BlockFault(1, 25, 2, 4), 19, "")],
        left: "HELD: 1",
    },
    Session {
        blocks: &[(1, 0, "5 NOSUCH")],
        moves: &[Types("1 LOAD", BlockFault(1, 7, 2, 6), 5, "")],
        left: "HELD: 1",
    },
    Session {
        blocks: &[(1, 0, ": X 1")],
        moves: &[Types("1 LOAD 2 ; X", Finished, 13, "")],
        left: "1 2 DP: 1638 NEWEST: 1620 HELD: 1",
    },
    Session {
        blocks: &[(1, 0, ": X [ 2 LOAD ] ;"), (2, 0, "5 ] LITERAL [ 6")],
        moves: &[Types("1 LOAD X", Finished, 22, "")],
        left: "6 5 DP: 1634 NEWEST: 1620 HELD: 1",
    },
    Session {
        blocks: &[(1, 0, ": X 2 BLOCK DROP CREATE ; X   FOO"), (2, 0, "")],
        moves: &[Types("1 LOAD", BlockFault(1, 4, 26, 1), 14, "")],
        left: "DP: 1640 NEWEST: 1620 HELD: 2",
    },
    Session {
        blocks: &[
            (1, 0, ": X 2 BLOCK DROP CREATE ; X   FOO"),
            (2, 0, "                              NAME"),
        ],
        moves: &[Types("1 LOAD NAME", Finished, 19, "")],
        left: "34048 DP: 1655 NEWEST: 1642 HELD: 1",
    },
    Session {
        blocks: &[(1, 0, "( a")],
        moves: &[Types("1 LOAD", BlockFault(1, 4, 0, 1), 4, "")],
        left: "HELD: 1",
    },
    Session {
        blocks: &[(1, 0, "( a")],
        moves: &[Types("1 LOAD )", BlockFault(1, 4, 0, 1), 4, "")],
        left: "HELD: 1",
    },
    Session {
        blocks: &[(1, 0, "7 1 ! 5")],
        moves: &[Types("1 LOAD", BlockFault(1, 16, 4, 1), 6, "")],
        left: "HELD: 1",
    },
    // A word at the very end.
    Session {
        blocks: &[(1, 0, ""), (1, 1023, "7")],
        moves: &[Types("1 LOAD", Finished, 6, "")],
        left: "7 HELD: 1",
    },
    // A block that is one word.
    Session {
        blocks: &[],
        moves: &[Types(
            "1 BLOCK 1024 88 FILL UPDATE FLUSH 1 LOAD",
            BlockFault(1, 5, 0, 1024),
            11,
            "",
        )],
        left: "HELD: 1",
    },
];

const A255: &str =
    "AAAAAAAAAAAAAAAAAAAAAAAAAAAAAAAAAAAAAAAAAAAAAAAAAAAAAAAAAAAAAAAAAAAAAAAAAAAAAAAAAAAAAAAAAAAAAAAAAAAAAAAAAAAAAAAAAAAAAAAAAAAAAAAAAAAAAAAAAAAAAAAAAAAAAAAAAAAAAAAAAAAAAAAAAAAAAAAAAAAAAAAAAAAAAAAAAAAAAAAAAAAAAAAAAAAAAAAAAAAAAAAAAAAAAAAAAAAAAAAAAAAAAAAAAAAAAAA";

// A text of 255 bytes, and one of 256.
static LONG_TEXTS: &[Session] = &[
    Session {
        blocks: &[(1, 0, ": X .\" "), (1, 7, A255), (1, 262, "\" ;")],
        moves: &[Types("1 LOAD X", Finished, 11, A255)],
        left: "DP: 1888 NEWEST: 1620 HELD: 1",
    },
    Session {
        blocks: &[(1, 0, ": X .\" "), (1, 7, A255), (1, 262, "A\" ;")],
        moves: &[Types("1 LOAD X", BlockFault(1, 4, 4, 2), 5, "")],
        left: "HELD: 1",
    },
];

static WRITTEN: &[Session] = &[
    // A write stays done when the read behind it is refused.
    Session {
        blocks: &[],
        moves: &[
            Types(
                "3 BLOCK 65 SWAP C! UPDATE 16 BLOCK",
                Fault(26, 29, 5),
                8,
                "",
            ),
            Types("4 BLOCK DROP 3 BLOCK C@ .", Finished, 8, "65 "),
        ],
        left: "HELD: 3",
    },
    // Bringing in the block of a load writes the buffer out.
    Session {
        blocks: &[(1, 0, "7 .")],
        moves: &[
            Types(": X 3 BLOCK 65 SWAP C! UPDATE ;", Finished, 9, ""),
            Types("X 1 LOAD", Finished, 15, "7 "),
            Types("3 BLOCK C@ .", Finished, 5, "65 "),
        ],
        left: "DP: 1646 NEWEST: 1620 HELD: 3",
    },
];

static LOCKED: &[Session] = &[
    Session {
        blocks: &[],
        moves: &[Locks, Types("0 BLOCK UPDATE", Fault(27, 8, 6), 3, "")],
        left: "HELD: 0",
    },
    Session {
        blocks: &[],
        moves: &[Locks, Types("UPDATE", Finished, 2, "")],
        left: "",
    },
    Session {
        blocks: &[(1, 0, "1 ."), (1, 64, "2 .")],
        moves: &[Locks, Types("1 LOAD", Finished, 9, "1 2 ")],
        left: "HELD: 1",
    },
    // Marked before the card was locked.
    Session {
        blocks: &[],
        moves: &[
            Types("3 BLOCK 65 SWAP C! UPDATE", Finished, 7, ""),
            Locks,
            Types("4 BLOCK", Fault(27, 2, 5), 2, ""),
            Types("16 BLOCK", Fault(27, 3, 5), 2, ""),
            Types("FLUSH", Fault(27, 0, 5), 1, ""),
            Types("UPDATE", Fault(27, 0, 6), 1, ""),
            Types("2 LOAD", BlockFault(2, 27, 2, 4), 3, ""),
            Types("3 BLOCK C@ .", Finished, 5, "65 "),
        ],
        left: "HELD: 3 UPDATED: 1",
    },
];

#[test]
fn buffer(rt: HostRuntime) {
    rows_hold(&rt, BUFFER);
    sessions_hold(&rt, WRITTEN);
    sessions_hold(&rt, LOCKED);
}

#[test]
fn loads(rt: HostRuntime) {
    sessions_hold(&rt, LOADS);
    sessions_hold(&rt, LONG_TEXTS);
}
