// Words that compile: immediate words, literals, and DOES>.
use super::trying::{rows_hold, sessions_hold};
use line_bench::end::End::{Fault, Finished};
use session_bench::sessions::Move::Types;
use session_bench::sessions::{Row, Session};

static IMMEDIATE_WORDS: &[Row] = &[
    (
        ": X 5 ; IMMEDIATE : Y X ;",
        Finished,
        10,
        "",
        "5 DP: 1646 NEWEST: 1636",
    ),
    (": X [ IMMEDIATE", Fault(9, 6, 9), 3, "", ""),
    (
        ": X ; : Y [ IMMEDIATE",
        Fault(9, 12, 9),
        5,
        "",
        "DP: 1630 NEWEST: 1620",
    ),
    ("IMMEDIATE : X (.\")", Fault(11, 14, 4), 3, "", ""),
    (": X X ;", Fault(7, 4, 1), 2, "", ""),
    (
        ": X 1 ; : X X 1+ ; X",
        Finished,
        14,
        "",
        "2 DP: 1650 NEWEST: 1636",
    ),
];

static BRACKETS: &[Row] = &[
    (
        ": X [ 2 3 + ] LITERAL ; X",
        Finished,
        12,
        "",
        "5 DP: 1634 NEWEST: 1620",
    ),
    ("[", Fault(8, 0, 1), 1, "", ""),
    ("]", Fault(8, 0, 1), 1, "", ""),
    ("5 LITERAL", Fault(8, 2, 7), 2, "", ""),
    (": X LITERAL", Fault(12, 4, 7), 2, "", ""),
    (
        ": X ['] DUP ; X",
        Finished,
        7,
        "",
        "288 DP: 1634 NEWEST: 1620",
    ),
    ("['] DUP", Fault(8, 4, 3), 1, "", ""),
    ("[']", Fault(4, 0, 3), 1, "", ""),
    ("['] NOSUCH", Fault(7, 4, 6), 1, "", ""),
    (
        ": X [COMPILE] ( ; X abc) 5",
        Finished,
        8,
        "",
        "5 DP: 1632 NEWEST: 1620",
    ),
    ("[COMPILE] DUP", Fault(8, 10, 3), 1, "", ""),
    (": X [COMPILE]", Fault(4, 4, 9), 2, "", ""),
];

static COMPILE_WORDS: &[Row] = &[
    ("COMPILE", Fault(8, 0, 7), 1, "", ""),
    (": X [ COMPILE", Fault(11, 6, 7), 3, "", ""),
    (
        ": X COMPILE DUP ; IMMEDIATE : Y X ; 5 Y",
        Finished,
        15,
        "",
        "5 5 DP: 1648 NEWEST: 1636",
    ),
    (
        ": X COMPILE DUP ; X",
        Fault(8, 18, 1),
        6,
        "",
        "DP: 1634 NEWEST: 1620",
    ),
];

static DOES: &[Row] = &[
    (
        ": CON CREATE , DOES> @ ; 7 CON S S 8 CON T T S",
        Finished,
        26,
        "",
        "7 8 7 DP: 1664 HERE: 34052 NEWEST: 1654",
    ),
    (
        ": CON CREATE , DOES> @ ; 7 CON S ' S >BODY",
        Finished,
        14,
        "",
        "34048 DP: 1652 HERE: 34050 NEWEST: 1642",
    ),
    ("DOES>", Fault(8, 0, 5), 1, "", ""),
    (
        ": X DOES> ; X",
        Fault(24, 12, 1),
        5,
        "",
        "DP: 1632 NEWEST: 1620",
    ),
    (
        ": D DOES> 5 ; 1 CONSTANT C D",
        Fault(24, 27, 1),
        8,
        "",
        "DP: 1648 NEWEST: 1638",
    ),
    (
        ": D DOES> 5 ; CREATE A : W [ D",
        Fault(9, 29, 1),
        9,
        "",
        "DP: 1648 NEWEST: 1638",
    ),
    (
        "CREATE A : D DOES> 5 ; D",
        Fault(24, 23, 1),
        7,
        "",
        "DP: 1648 NEWEST: 1632",
    ),
    (
        ": D DOES> DROP 9 ; CREATE A D A",
        Finished,
        13,
        "",
        "9 DP: 1650 NEWEST: 1640",
    ),
    (
        ": D DOES> DROP 1 ; : E DOES> DROP 2 ; CREATE A D E A",
        Finished,
        20,
        "",
        "2 DP: 1670 NEWEST: 1660",
    ),
    ("(;CODE)", Fault(11, 0, 7), 1, "", ""),
    (": X [ (;CODE)", Fault(9, 6, 7), 3, "", ""),
    (": X DOES> ;", Finished, 4, "", "DP: 1632 NEWEST: 1620"),
];

static FULL_DICTIONARY: &[Session] = &[Session {
    blocks: &[],
    moves: &[
        Types(": F BEGIN COMPILE DUP 0 UNTIL ; IMMEDIATE", Finished, 9, ""),
        Types(": Y F", Fault(20, 4, 1), 46677, ""),
    ],
    left: "DP: 1642 NEWEST: 1620",
}];

#[test]
fn immediate_words(rt: HostRuntime) {
    rows_hold(&rt, IMMEDIATE_WORDS);
    rows_hold(&rt, BRACKETS);
    rows_hold(&rt, COMPILE_WORDS);
}

#[test]
fn does(rt: HostRuntime) {
    rows_hold(&rt, DOES);
}

#[test]
fn full_dictionary(rt: HostRuntime) {
    sessions_hold(&rt, FULL_DICTIONARY);
}
