// How a line ends: what it leaves to the next, what a fault leaves, and stops.
use super::trying::{rows_hold, sessions_hold};
use line_bench::end::End::{BlockFault, Fault, Finished, Stopped};
use session_bench::sessions::Move::{Gives, Runs, Types};
use session_bench::sessions::{Row, Session};

static ABORTED: &[Row] = &[
    ("ABORT", Fault(28, 0, 5), 1, "", ""),
    (
        ": X 5 ABORT ; X",
        Fault(28, 14, 1),
        7,
        "",
        "DP: 1636 NEWEST: 1620",
    ),
];

static LINES: &[Session] = &[
    Session {
        blocks: &[],
        moves: &[Types("1 2", Finished, 3, "")],
        left: "1 2",
    },
    Session {
        blocks: &[],
        moves: &[
            Types(": X 1", Finished, 3, ""),
            Types("2 ;", Finished, 3, ""),
            Types("X", Finished, 5, ""),
        ],
        left: "1 2 DP: 1638 NEWEST: 1620",
    },
    Session {
        blocks: &[],
        moves: &[Types(": X 1", Finished, 3, ""), Types("2", Finished, 2, "")],
        left: "DP: 1636 OPEN: 1620 COMPILING: 1",
    },
    Session {
        blocks: &[],
        moves: &[
            Types(": X 1", Finished, 3, ""),
            Types("NOSUCH", Fault(7, 0, 6), 1, ""),
        ],
        left: "",
    },
    Session {
        blocks: &[],
        moves: &[Types(": X NOSUCH", Fault(7, 4, 6), 2, "")],
        left: "",
    },
    Session {
        blocks: &[],
        moves: &[
            Types("1 2", Finished, 3, ""),
            Types("NOSUCH", Fault(7, 0, 6), 1, ""),
        ],
        left: "",
    },
    Session {
        blocks: &[],
        moves: &[Types("1 2", Finished, 3, ""), Types("3", Finished, 2, "")],
        left: "1 2 3",
    },
    Session {
        blocks: &[],
        moves: &[
            Types("5 , : X 5 ; 1 BASE !", Finished, 9, ""),
            Types("0", Fault(7, 0, 1), 1, ""),
        ],
        left: "DP: 1634 HERE: 34050 NEWEST: 1620",
    },
];

static FAULTS: &[Session] = &[
    Session {
        blocks: &[],
        moves: &[
            Types("1 2 : X IF 3", Finished, 6, ""),
            Types("NOSUCH", Fault(7, 0, 6), 1, ""),
            Types("DEPTH .", Finished, 3, "0 "),
        ],
        left: "",
    },
    Session {
        blocks: &[],
        moves: &[
            Types(": A 1 ; : B NOSUCH", Fault(7, 12, 6), 5, ""),
            Types("A .", Finished, 5, "1 "),
        ],
        left: "DP: 1634 NEWEST: 1620",
    },
    Session {
        blocks: &[],
        moves: &[Types("7 , 1 0 /", Fault(17, 8, 1), 5, "")],
        left: "HERE: 34050",
    },
    Session {
        blocks: &[(1, 0, "5 NOSUCH")],
        moves: &[
            Types("1 LOAD", BlockFault(1, 7, 2, 6), 5, ""),
            Types("7 .", Finished, 3, "7 "),
        ],
        left: "HELD: 1",
    },
];

// By the budget, or for want of space; a fault comes before that.
static STOPS: &[Session] = &[
    Session {
        blocks: &[],
        moves: &[
            Gives("2 3 + . 7 ."),
            Runs(3, 9, Stopped, 3, ""),
            Runs(100, 1, Stopped, 0, ""),
            Runs(100, 2, Stopped, 2, "5 "),
            Runs(100, 2, Finished, 2, "7 "),
        ],
        left: "",
    },
    Session {
        blocks: &[],
        moves: &[
            Gives("1"),
            Runs(0, 9, Stopped, 0, ""),
            Runs(1, 9, Stopped, 1, ""),
            Runs(1, 9, Finished, 1, ""),
        ],
        left: "1",
    },
    Session {
        blocks: &[],
        moves: &[
            Gives(": V 3 0 DO I . LOOP ; V"),
            Runs(1000, 3, Stopped, 16, "0 "),
            Runs(1000, 4, Finished, 7, "1 2 "),
        ],
        left: "DP: 1650 NEWEST: 1620",
    },
    Session {
        blocks: &[],
        moves: &[
            Gives("5 ' . EXECUTE"),
            Runs(100, 1, Stopped, 2, ""),
            Runs(100, 2, Finished, 2, "5 "),
        ],
        left: "",
    },
    Session {
        blocks: &[],
        moves: &[
            Gives("CR"),
            Runs(9, 1, Stopped, 0, ""),
            Runs(9, 2, Finished, 2, "\r\n"),
        ],
        left: "",
    },
    Session {
        blocks: &[],
        moves: &[
            Gives(": X .\" ABC\" ; X"),
            Runs(9, 2, Stopped, 4, ""),
            Runs(9, 3, Finished, 3, "ABC"),
        ],
        left: "DP: 1636 NEWEST: 1620",
    },
    Session {
        blocks: &[],
        moves: &[
            Gives("0 SPACES -1 SPACES 0 0 TYPE"),
            Runs(100, 0, Finished, 8, ""),
        ],
        left: "",
    },
    Session {
        blocks: &[(1, 0, "2 3 + .")],
        moves: &[
            Gives("1 LOAD 9"),
            Runs(3, 9, Stopped, 3, ""),
            Runs(100, 9, Finished, 7, "5 "),
        ],
        left: "9 HELD: 1",
    },
    Session {
        blocks: &[],
        moves: &[Gives(". 1"), Runs(100, 0, Fault(12, 0, 1), 1, "")],
        left: "",
    },
    Session {
        blocks: &[],
        moves: &[Gives("5 1 BASE ! ."), Runs(100, 0, Fault(18, 11, 1), 5, "")],
        left: "",
    },
];

#[test]
fn lines(rt: HostRuntime) {
    rows_hold(&rt, ABORTED);
    sessions_hold(&rt, LINES);
    sessions_hold(&rt, FAULTS);
}

#[test]
fn stops(rt: HostRuntime) {
    sessions_hold(&rt, STOPS);
}
