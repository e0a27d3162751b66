// Vocabularies, the search order, and FORGET.
use super::trying::{rows_hold, sessions_hold};
use line_bench::end::End::{Fault, Finished};
use session_bench::sessions::Move::{Pokes, Types};
use session_bench::sessions::{Row, Session};

static ORDERS: &[Row] = &[
    (
        "VOCABULARY B",
        Finished,
        2,
        "",
        "DP: 1638 NEWEST: 1620 VOC-LINK: 1636",
    ),
    (": X [ VOCABULARY Y", Fault(9, 17, 1), 3, "", ""),
    (": X [ DEFINITIONS", Fault(9, 6, 11), 3, "", ""),
    (
        "VOCABULARY B B DEFINITIONS : A 2 ; FORTH A",
        Finished,
        11,
        "",
        "2 DP: 1654 NEWEST: 1640 VOC-LINK: 1636 CURRENT: 1628",
    ),
    (
        "VOCABULARY B B DEFINITIONS : A 2 ; FORTH DEFINITIONS A",
        Fault(7, 53, 1),
        9,
        "",
        "DP: 1654 NEWEST: 1640 VOC-LINK: 1636",
    ),
    (
        "VOCABULARY B : A 1 ; B DEFINITIONS : A 2 ; FORTH A",
        Finished,
        14,
        "",
        "1 DP: 1670 NEWEST: 1656 VOC-LINK: 1636 CURRENT: 1628",
    ),
    (
        "VOCABULARY B B DEFINITIONS : A 2 ; FORTH DEFINITIONS B A",
        Finished,
        13,
        "",
        "2 DP: 1654 NEWEST: 1640 VOC-LINK: 1636 CONTEXT: 1628",
    ),
    (
        "VOCABULARY B B : X ;",
        Finished,
        5,
        "",
        "DP: 1650 NEWEST: 1640 VOC-LINK: 1636",
    ),
    (
        "VOCABULARY B : X [ B ] ;",
        Finished,
        7,
        "",
        "DP: 1650 NEWEST: 1640 VOC-LINK: 1636 CONTEXT: 1628",
    ),
    (
        "VOCABULARY B B DEFINITIONS DUP",
        Fault(12, 27, 3),
        4,
        "",
        "DP: 1638 NEWEST: 1620 VOC-LINK: 1636 CONTEXT: 1628 CURRENT: 1628",
    ),
];

static FORGOTTEN: &[Row] = &[
    ("FORGET DUP", Fault(23, 7, 3), 1, "", ""),
    ("FORGET FORTH", Fault(23, 7, 5), 1, "", ""),
    ("FORGET", Fault(4, 0, 6), 1, "", ""),
    ("FORGET NOSUCH", Fault(7, 7, 6), 1, "", ""),
    (
        ": X ; : Y FORGET ; Y X",
        Fault(10, 21, 1),
        7,
        "",
        "DP: 1644 NEWEST: 1632",
    ),
    (
        ": X ; : Y [ FORGET X",
        Fault(9, 19, 1),
        5,
        "",
        "DP: 1630 NEWEST: 1620",
    ),
    (
        ": X ; : Y [ FORGET NOSUCH",
        Fault(7, 19, 6),
        5,
        "",
        "DP: 1630 NEWEST: 1620",
    ),
    (": A ; : B ; : C ; : D ; FORGET A", Finished, 10, "", ""),
    (
        ": A 1 ; : A 2 ; FORGET A A",
        Finished,
        11,
        "",
        "1 DP: 1634 NEWEST: 1620",
    ),
    (
        "VARIABLE X VARIABLE Y FORGET Y HERE X",
        Finished,
        6,
        "",
        "34050 34048 DP: 1630 HERE: 34050 NEWEST: 1620",
    ),
    (
        "VOCABULARY B B DEFINITIONS : A ; FORTH DEFINITIONS : C ; FORGET B",
        Finished,
        11,
        "",
        "",
    ),
    (
        "VOCABULARY B B DEFINITIONS : A ; FORTH DEFINITIONS B FORGET A",
        Fault(7, 60, 1),
        9,
        "",
        "DP: 1650 NEWEST: 1640 VOC-LINK: 1636 CONTEXT: 1628",
    ),
    (
        "VOCABULARY B : C ; B FORGET C",
        Finished,
        6,
        "",
        "DP: 1638 NEWEST: 1620 VOC-LINK: 1636 CONTEXT: 1628",
    ),
    (": C ; VOCABULARY B B FORGET C", Finished, 6, "", ""),
    (
        "VOCABULARY B B DEFINITIONS : B 5 ; FORGET B B",
        Finished,
        9,
        "",
        "DP: 1638 NEWEST: 1620 VOC-LINK: 1636 CONTEXT: 1628 CURRENT: 1628",
    ),
    (
        "VOCABULARY A VOCABULARY B VOCABULARY C FORGET B",
        Finished,
        5,
        "",
        "DP: 1638 NEWEST: 1620 VOC-LINK: 1636",
    ),
    (": X 5 ; FORGET X IMMEDIATE", Finished, 6, "", ""),
];

static FORGOTTEN_IN_TWO: &[Session] = &[Session {
    blocks: &[],
    moves: &[
        Types(
            "VOCABULARY B B DEFINITIONS : A 7 ; FORTH DEFINITIONS : Z ; B DEFINITIONS : E ;",
            Finished,
            15,
            "",
        ),
        Types("FORTH DEFINITIONS FORGET Z B A", Finished, 8, ""),
    ],
    left: "7 DP: 1654 NEWEST: 1640 VOC-LINK: 1636 CONTEXT: 1628",
}];

// In an image with a byte from elsewhere. A link that leads upwards: a search that comes to it, and one that has found its word before.
static BROKEN: &[Session] = &[
    Session {
        blocks: &[],
        moves: &[
            Types(": A ;", Finished, 3, ""),
            Pokes(1621, 255),
            Types("A", Finished, 3, ""),
            Types("E", Fault(6, 0, 1), 1, ""),
            Types("FORGET E", Fault(6, 7, 1), 1, ""),
        ],
        left: "DP: 1630 NEWEST: 1620",
    },
    // In a thread that FORGET walks, above the word and below it.
    Session {
        blocks: &[],
        moves: &[
            Types(": A ; : B ; : E ;", Finished, 7, ""),
            Pokes(1645, 255),
            Types("FORGET B", Fault(6, 7, 1), 1, ""),
            Types("FORGET E", Fault(6, 7, 1), 1, ""),
        ],
        left: "DP: 1654 NEWEST: 1644",
    },
    // The vocabulary chain.
    Session {
        blocks: &[],
        moves: &[
            Types("VOCABULARY B", Finished, 2, ""),
            Pokes(1637, 255),
            Types("B", Fault(6, 0, 1), 1, ""),
            Types("FORGET B", Fault(6, 7, 1), 1, ""),
        ],
        left: "DP: 1638 NEWEST: 1620 VOC-LINK: 1636",
    },
    // The first parameter cell below data space, above HERE, and at it.
    Session {
        blocks: &[],
        moves: &[
            Types("CREATE A", Finished, 2, ""),
            Pokes(1627, 132),
            Types("FORGET A", Fault(22, 7, 1), 1, ""),
            Pokes(1627, 134),
            Types("FORGET A", Fault(22, 7, 1), 1, ""),
            Types("256 ALLOT FORGET A", Finished, 4, ""),
        ],
        left: "HERE: 34304",
    },
    // Codes that are not known, and that of DUP.
    Session {
        blocks: &[],
        moves: &[
            Types(": A ;", Finished, 3, ""),
            Pokes(1624, 200),
            Types("A", Fault(22, 0, 1), 1, ""),
            Pokes(1624, 206),
            Types("A", Fault(22, 0, 1), 1, ""),
            Pokes(1624, 106),
            Types("A", Fault(22, 0, 1), 1, ""),
            Pokes(1624, 1),
            Types("A", Fault(12, 0, 1), 1, ""),
        ],
        left: "DP: 1630 NEWEST: 1620",
    },
];

#[test]
fn orders(rt: HostRuntime) {
    rows_hold(&rt, ORDERS);
}

#[test]
fn forgetting(rt: HostRuntime) {
    rows_hold(&rt, FORGOTTEN);
    sessions_hold(&rt, FORGOTTEN_IN_TWO);
}

#[test]
fn broken(rt: HostRuntime) {
    sessions_hold(&rt, BROKEN);
}
