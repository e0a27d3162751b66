// Words that name or take a word.
use super::trying::{rows_hold, sessions_hold};
use line_bench::end::End::{Fault, Finished};
use session_bench::sessions::Move::Types;
use session_bench::sessions::{Row, Session};

static DEFINING: &[Row] = &[
    (":", Fault(4, 0, 1), 1, "", ""),
    (
        ": ABCDEFGHIJKLMNOPQRSTUVWXYZ123456",
        Fault(5, 2, 32),
        1,
        "",
        "",
    ),
    (
        ": ABCDEFGHIJKLMNOPQRSTUVWXYZ12345 5 ; abcdefghijklmnopqrstuvwxyz12345",
        Finished,
        7,
        "",
        "5 DP: 1664 NEWEST: 1620",
    ),
    (": X [ : Y", Fault(9, 8, 1), 3, "", ""),
    (": X [ :", Fault(4, 6, 1), 3, "", ""),
    (
        ": X : ; X Y",
        Fault(10, 10, 1),
        5,
        "",
        "DP: 1632 NEWEST: 1620",
    ),
    (";", Fault(8, 0, 1), 1, "", ""),
    (": X IF ;", Fault(19, 7, 1), 3, "", ""),
    (": X 5 [ ; X", Finished, 8, "", "5 DP: 1634 NEWEST: 1620"),
    ("CREATE A A", Finished, 3, "", "34048 DP: 1630 NEWEST: 1620"),
    ("CREATE A", Finished, 2, "", "DP: 1630 NEWEST: 1620"),
    ("CREATE", Fault(4, 0, 6), 1, "", ""),
    (": X [ CREATE Y", Fault(9, 13, 1), 3, "", ""),
    (
        ": X CREATE ; X FOO FOO",
        Finished,
        8,
        "",
        "34048 DP: 1646 NEWEST: 1634",
    ),
    (
        "VARIABLE X 5 X ! X @",
        Finished,
        7,
        "",
        "5 DP: 1630 HERE: 34050 NEWEST: 1620",
    ),
    (": X [ VARIABLE Y", Fault(9, 15, 1), 3, "", ""),
    (
        "7 CONSTANT S S S",
        Finished,
        5,
        "",
        "7 7 DP: 1630 NEWEST: 1620",
    ),
    ("CONSTANT S", Fault(12, 9, 1), 1, "", ""),
    ("CONSTANT", Fault(4, 0, 8), 1, "", ""),
    (": X [ 1 CONSTANT Y", Fault(9, 17, 1), 4, "", ""),
];

static EXECUTING: &[Row] = &[
    ("2 3 ' + EXECUTE .", Finished, 6, "5 ", ""),
    ("5 ' DUP ' EXECUTE EXECUTE", Finished, 5, "", "5 5"),
    ("EXECUTE", Fault(12, 0, 7), 1, "", ""),
    ("0 EXECUTE", Fault(22, 2, 7), 2, "", ""),
    ("1617 EXECUTE", Fault(22, 5, 7), 2, "", ""),
    ("65535 EXECUTE", Fault(22, 6, 7), 2, "", ""),
    ("' EXIT EXECUTE", Fault(11, 7, 7), 2, "", ""),
    (
        "' : EXECUTE X 5 ; X",
        Finished,
        8,
        "",
        "5 DP: 1634 NEWEST: 1620",
    ),
    ("' EXECUTE EXECUTE", Fault(12, 10, 7), 2, "", ""),
    ("5 ' . ' EXECUTE ' EXECUTE EXECUTE", Finished, 6, "5 ", ""),
];

static TICKS: &[Row] = &[
    ("' DUP", Finished, 2, "", "288"),
    ("' NOSUCH", Fault(7, 2, 6), 1, "", ""),
    ("'", Fault(4, 0, 1), 1, "", ""),
    (
        "' ABCDEFGHIJKLMNOPQRSTUVWXYZ123456",
        Fault(5, 2, 32),
        1,
        "",
        "",
    ),
    (
        "VARIABLE X ' X >BODY X",
        Finished,
        5,
        "",
        "34048 34048 DP: 1630 HERE: 34050 NEWEST: 1620",
    ),
    ("' DUP >BODY", Fault(22, 6, 5), 2, "", ""),
    (
        "1 CONSTANT C ' C >BODY",
        Fault(22, 17, 5),
        4,
        "",
        "DP: 1630 NEWEST: 1620",
    ),
    ("0 >BODY", Fault(22, 2, 5), 2, "", ""),
    (">BODY", Fault(12, 0, 5), 1, "", ""),
];

// 64 numbers.
const ONES: &str =
    "1 1 1 1 1 1 1 1 1 1 1 1 1 1 1 1 1 1 1 1 1 1 1 1 1 1 1 1 1 1 1 1 1 1 1 1 1 1 1 1 1 1 1 1 1 1 1 1 1 1 1 1 1 1 1 1 1 1 1 1 1 1 1 1 ";

static NO_WORD_ON_A_FULL_STACK: &[Session] = &[Session {
    blocks: &[],
    moves: &[
        Types(ONES, Finished, 65, ""),
        Types(ONES, Finished, 65, ""),
        Types("' NOSUCH", Fault(7, 2, 6), 1, ""),
    ],
    left: "",
}];

#[test]
fn defining(rt: HostRuntime) {
    rows_hold(&rt, DEFINING);
}

#[test]
fn executing(rt: HostRuntime) {
    rows_hold(&rt, EXECUTING);
    rows_hold(&rt, TICKS);
}

#[test]
fn full_stack(rt: HostRuntime) {
    sessions_hold(&rt, NO_WORD_ON_A_FULL_STACK);
}
