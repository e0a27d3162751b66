// Loops, and the return cells that they keep.
use super::trying::rows_hold;
use line_bench::end::End::{Fault, Finished};
use session_bench::sessions::Row;

static LOOPS: &[Row] = &[
    (
        ": X 3 0 DO I . LOOP ; X",
        Finished,
        23,
        "0 1 2 ",
        "DP: 1650 NEWEST: 1620",
    ),
    (
        ": X 0 0 0 DO 1+ LOOP ; X",
        Finished,
        131087,
        "",
        "0 DP: 1652 NEWEST: 1620",
    ),
    (
        "VARIABLE N : X 7 7 DO 1 N +! I 3 = IF LEAVE THEN LOOP ; X N @ U.",
        Finished,
        524289,
        "65533 ",
        "DP: 1680 HERE: 34050 NEWEST: 1632",
    ),
    (
        ": X 10 0 DO I . 3 +LOOP ; X",
        Finished,
        31,
        "0 3 6 9 ",
        "DP: 1654 NEWEST: 1620",
    ),
    (
        ": X 0 10 DO I . -5 +LOOP ; X",
        Finished,
        27,
        "10 5 0 ",
        "DP: 1654 NEWEST: 1620",
    ),
    (
        ": X -32768 32766 DO I . LOOP ; X",
        Finished,
        20,
        "32766 32767 ",
        "DP: 1650 NEWEST: 1620",
    ),
    (
        ": X 1 -1 DO I . LOOP ; X",
        Finished,
        20,
        "-1 0 ",
        "DP: 1650 NEWEST: 1620",
    ),
    (
        ": X 0 1 DO I . 32767 +LOOP ; X",
        Finished,
        27,
        "1 -32768 -1 ",
        "DP: 1654 NEWEST: 1620",
    ),
    (
        ": X 10 0 DO I DUP . 3 = IF LEAVE THEN LOOP 99 . ; X",
        Finished,
        52,
        "0 1 2 3 99 ",
        "DP: 1670 NEWEST: 1620",
    ),
    (
        ": X 2 0 DO 2 0 DO J . LOOP LOOP ; X",
        Finished,
        38,
        "0 0 1 1 ",
        "DP: 1666 NEWEST: 1620",
    ),
    (
        ": X 2 0 DO 12 10 DO I J + . LOOP LOOP ; X",
        Finished,
        48,
        "10 11 11 12 ",
        "DP: 1670 NEWEST: 1620",
    ),
    (
        ": X DO LOOP ; 1 X",
        Fault(12, 16, 1),
        7,
        "",
        "DP: 1638 NEWEST: 1620",
    ),
    (
        ": X 5 0 DO (+LOOP) DUP LOOP ; X",
        Fault(12, 30, 1),
        13,
        "",
        "DP: 1650 NEWEST: 1620",
    ),
    (
        ": X 0 DO I 2 MOD IF I . THEN LOOP ; 5 X",
        Finished,
        47,
        "1 3 ",
        "DP: 1658 NEWEST: 1620",
    ),
];

static NO_WORD_RUNS: &[Row] = &[
    ("1 2 EXIT", Fault(11, 4, 4), 3, "", ""),
    ("1 2 >R", Fault(11, 4, 2), 3, "", ""),
    ("1 2 R>", Fault(11, 4, 2), 3, "", ""),
    ("1 2 R@", Fault(11, 4, 2), 3, "", ""),
    ("1 2 I", Fault(11, 4, 1), 3, "", ""),
    ("1 2 J", Fault(11, 4, 1), 3, "", ""),
    ("1 2 LEAVE", Fault(11, 4, 5), 3, "", ""),
    ("1 2 (LIT)", Fault(11, 4, 5), 3, "", ""),
    ("1 2 BRANCH", Fault(11, 4, 6), 3, "", ""),
    ("1 2 ?BRANCH", Fault(11, 4, 7), 3, "", ""),
    ("1 2 (DO)", Fault(11, 4, 4), 3, "", ""),
    ("1 2 (LOOP)", Fault(11, 4, 6), 3, "", ""),
    ("1 2 (+LOOP)", Fault(11, 4, 7), 3, "", ""),
    ("1 2 (.\")", Fault(11, 4, 4), 3, "", ""),
];

static RETURN_CELLS: &[Row] = &[
    (
        ": X 1 EXIT 2 ; X",
        Finished,
        9,
        "",
        "1 DP: 1640 NEWEST: 1620",
    ),
    (
        ": X 5 >R R@ R> ; X",
        Finished,
        13,
        "",
        "5 5 DP: 1640 NEWEST: 1620",
    ),
    (
        ": X >R ; X",
        Fault(12, 9, 1),
        5,
        "",
        "DP: 1632 NEWEST: 1620",
    ),
    (
        ": X R> DROP ; X",
        Fault(14, 14, 1),
        8,
        "",
        "DP: 1634 NEWEST: 1620",
    ),
    (": X J ; X", Fault(14, 8, 1), 5, "", "DP: 1632 NEWEST: 1620"),
    (
        ": X LEAVE ; X",
        Fault(14, 12, 1),
        5,
        "",
        "DP: 1632 NEWEST: 1620",
    ),
    (": X I ; X", Finished, 7, "", "0 DP: 1632 NEWEST: 1620"),
    (
        ": X 1 2 (LOOP) ; X",
        Fault(14, 17, 1),
        9,
        "",
        "DP: 1640 NEWEST: 1620",
    ),
    (
        ": X 0 >R ; X 7",
        Finished,
        10,
        "",
        "7 DP: 1636 NEWEST: 1620",
    ),
    (
        ": X 100 >R ; X",
        Fault(22, 13, 1),
        9,
        "",
        "DP: 1636 NEWEST: 1620",
    ),
    (
        ": X 5 >R 6 >R 0 >R EXIT ; X 7",
        Finished,
        19,
        "",
        "7 DP: 1650 NEWEST: 1620",
    ),
    (
        "VARIABLE V : X V @ EXECUTE ; ' X V ! X",
        Fault(15, 37, 1),
        394,
        "",
        "DP: 1648 HERE: 34050 NEWEST: 1632",
    ),
    (
        ": X BEGIN 1 >R 0 UNTIL ; X",
        Fault(15, 25, 1),
        518,
        "",
        "DP: 1644 NEWEST: 1620",
    ),
    (
        ": X BEGIN 1 0 UNTIL ; X",
        Fault(13, 22, 1),
        390,
        "",
        "DP: 1642 NEWEST: 1620",
    ),
    (
        "VARIABLE N : X BEGIN 1 >R 1 N +! N @ 126 = UNTIL 1 0 DO LOOP ; X",
        Fault(15, 63, 1),
        1282,
        "",
        "DP: 1686 HERE: 34050 NEWEST: 1632",
    ),
    (
        "VARIABLE N : X BEGIN 1 >R 1 N +! N @ 124 = UNTIL 1 0 DO LOOP ; X",
        Fault(22, 63, 1),
        1265,
        "",
        "DP: 1686 HERE: 34050 NEWEST: 1632",
    ),
];

static INLINE_CELLS: &[Row] = &[
    (
        ": X (LIT) DUP ; X",
        Finished,
        8,
        "",
        "288 DP: 1634 NEWEST: 1620",
    ),
    (
        ": X BRANCH DUP ; X",
        Fault(22, 17, 1),
        7,
        "",
        "DP: 1634 NEWEST: 1620",
    ),
    (
        ": X ?BRANCH DUP 5 ; 1 X",
        Finished,
        11,
        "",
        "5 DP: 1638 NEWEST: 1620",
    ),
    (
        ": X ?BRANCH DUP 5 ; 0 X",
        Fault(22, 22, 1),
        9,
        "",
        "DP: 1638 NEWEST: 1620",
    ),
    (
        ": X ?BRANCH DUP 5 ; X",
        Fault(12, 20, 1),
        7,
        "",
        "DP: 1638 NEWEST: 1620",
    ),
    (
        ": X 1 0 (DO) DUP R> R> R> DROP DROP ; X",
        Finished,
        22,
        "",
        "0 DP: 1652 NEWEST: 1620",
    ),
];

#[test]
fn loops(rt: HostRuntime) {
    rows_hold(&rt, LOOPS);
}

#[test]
fn return_cells(rt: HostRuntime) {
    rows_hold(&rt, NO_WORD_RUNS);
    rows_hold(&rt, RETURN_CELLS);
    rows_hold(&rt, INLINE_CELLS);
}
