// Control structures, their marks, and how they run.
use super::trying::{rows_hold, sessions_hold};
use line_bench::end::End::{Fault, Finished};
use session_bench::sessions::Move::Types;
use session_bench::sessions::{Row, Session};

static BRANCHES: &[Row] = &[
    (
        ": X IF 1 ELSE 2 THEN ; 0 X 5 X",
        Finished,
        19,
        "",
        "2 1 DP: 1646 NEWEST: 1620",
    ),
    (
        ": X IF 7 THEN ; 0 X 1 X",
        Finished,
        15,
        "",
        "7 DP: 1638 NEWEST: 1620",
    ),
    (
        ": X 0 BEGIN 1+ DUP 5 = UNTIL ; X",
        Finished,
        38,
        "",
        "5 DP: 1648 NEWEST: 1620",
    ),
    (
        ": X 0 BEGIN DUP 3 < WHILE 1+ REPEAT ; X",
        Finished,
        36,
        "",
        "3 DP: 1652 NEWEST: 1620",
    ),
];

static NO_DEFINITION: &[Row] = &[
    ("IF", Fault(8, 0, 2), 1, "", ""),
    ("ELSE", Fault(8, 0, 4), 1, "", ""),
    ("THEN", Fault(8, 0, 4), 1, "", ""),
    ("BEGIN", Fault(8, 0, 5), 1, "", ""),
    ("WHILE", Fault(8, 0, 5), 1, "", ""),
    ("REPEAT", Fault(8, 0, 6), 1, "", ""),
    ("UNTIL", Fault(8, 0, 5), 1, "", ""),
    ("DO", Fault(8, 0, 2), 1, "", ""),
    ("LOOP", Fault(8, 0, 4), 1, "", ""),
    ("+LOOP", Fault(8, 0, 5), 1, "", ""),
];

static WRONG_MARKS: &[Row] = &[
    (": X ELSE", Fault(19, 4, 4), 2, "", ""),
    (": X THEN", Fault(19, 4, 4), 2, "", ""),
    (": X WHILE", Fault(19, 4, 5), 2, "", ""),
    (": X REPEAT", Fault(19, 4, 6), 2, "", ""),
    (": X UNTIL", Fault(19, 4, 5), 2, "", ""),
    (": X LOOP", Fault(19, 4, 4), 2, "", ""),
    (": X +LOOP", Fault(19, 4, 5), 2, "", ""),
    (": X BEGIN REPEAT", Fault(19, 10, 6), 3, "", ""),
    (": X BEGIN 1 WHILE UNTIL", Fault(19, 18, 5), 5, "", ""),
    (": X BEGIN 1 WHILE 1 WHILE", Fault(19, 20, 5), 6, "", ""),
    (": X IF LOOP", Fault(19, 7, 4), 3, "", ""),
    (": X DO THEN", Fault(19, 7, 4), 3, "", ""),
    (": X BEGIN ;", Fault(19, 10, 1), 3, "", ""),
    (": X BEGIN THEN", Fault(19, 10, 4), 3, "", ""),
    (": X BEGIN ELSE", Fault(19, 10, 4), 3, "", ""),
    (": X BEGIN LOOP", Fault(19, 10, 4), 3, "", ""),
    (": X BEGIN +LOOP", Fault(19, 10, 5), 3, "", ""),
    (": X IF WHILE", Fault(19, 7, 5), 3, "", ""),
    (": X IF REPEAT", Fault(19, 7, 6), 3, "", ""),
    (": X IF UNTIL", Fault(19, 7, 5), 3, "", ""),
    (": X IF +LOOP", Fault(19, 7, 5), 3, "", ""),
    (": X DO ELSE", Fault(19, 7, 4), 3, "", ""),
    (": X DO WHILE", Fault(19, 7, 5), 3, "", ""),
    (": X DO REPEAT", Fault(19, 7, 6), 3, "", ""),
    (": X DO UNTIL", Fault(19, 7, 5), 3, "", ""),
    (": X DO ;", Fault(19, 7, 1), 3, "", ""),
    (": X BEGIN 1 WHILE THEN", Fault(19, 18, 4), 5, "", ""),
    (": X BEGIN 1 WHILE ELSE", Fault(19, 18, 4), 5, "", ""),
    (": X BEGIN 1 WHILE LOOP", Fault(19, 18, 4), 5, "", ""),
    (": X BEGIN 1 WHILE ;", Fault(19, 18, 1), 5, "", ""),
];

static MARKS: &[Session] = &[
    Session {
        blocks: &[],
        moves: &[
            Types(
                ": X BEGIN BEGIN BEGIN BEGIN BEGIN BEGIN BEGIN BEGIN BEGIN BEGIN BEGIN BEGIN BEGIN BEGIN BEGIN BEGIN BEGIN BEGIN BEGIN BEGIN ",
                Finished,
                22,
                "",
            ),
            Types(
                "BEGIN BEGIN BEGIN BEGIN BEGIN BEGIN BEGIN BEGIN BEGIN BEGIN BEGIN BEGIN ",
                Finished,
                13,
                "",
            ),
        ],
        left: "DP: 1628 OPEN: 1620 COMPILING: 1 MARKS: 32",
    },
    Session {
        blocks: &[],
        moves: &[
            Types(
                ": X BEGIN BEGIN BEGIN BEGIN BEGIN BEGIN BEGIN BEGIN BEGIN BEGIN BEGIN BEGIN BEGIN BEGIN BEGIN BEGIN BEGIN BEGIN BEGIN BEGIN ",
                Finished,
                22,
                "",
            ),
            Types(
                "BEGIN BEGIN BEGIN BEGIN BEGIN BEGIN BEGIN BEGIN BEGIN BEGIN BEGIN BEGIN BEGIN",
                Fault(19, 72, 5),
                13,
                "",
            ),
        ],
        left: "",
    },
    Session {
        blocks: &[],
        moves: &[
            Types(
                ": X BEGIN BEGIN BEGIN BEGIN BEGIN BEGIN BEGIN BEGIN BEGIN BEGIN BEGIN BEGIN BEGIN BEGIN BEGIN BEGIN BEGIN BEGIN BEGIN BEGIN ",
                Finished,
                22,
                "",
            ),
            Types(
                "BEGIN BEGIN BEGIN BEGIN BEGIN BEGIN BEGIN BEGIN BEGIN BEGIN BEGIN BEGIN 1 IF",
                Fault(19, 74, 2),
                14,
                "",
            ),
        ],
        left: "",
    },
];

#[test]
fn control(rt: HostRuntime) {
    rows_hold(&rt, BRANCHES);
    rows_hold(&rt, NO_DEFINITION);
    rows_hold(&rt, WRONG_MARKS);
}

#[test]
fn marks(rt: HostRuntime) {
    sessions_hold(&rt, MARKS);
}
