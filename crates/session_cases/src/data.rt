// Words on data cells and on data space.
use super::trying::{rows_hold, sessions_hold};
use line_bench::end::End::{Fault, Finished};
use session_bench::sessions::Move::Types;
use session_bench::sessions::{Row, Session};

static MOVES: &[Row] = &[
    ("1 2 3 ROT", Finished, 5, "", "2 3 1"),
    ("1 2 SWAP", Finished, 4, "", "2 1"),
    ("1 2 OVER", Finished, 4, "", "1 2 1"),
    ("1 2 DROP", Finished, 4, "", "1"),
    ("5 ?DUP 0 ?DUP", Finished, 5, "", "5 5 0"),
    ("7 8 DEPTH", Finished, 4, "", "7 8 2"),
    ("10 20 30 2 PICK", Finished, 6, "", "10 20 30 10"),
    ("10 0 PICK", Finished, 4, "", "10 10"),
    ("10 20 30 2 ROLL", Finished, 6, "", "20 30 10"),
    ("10 20 1 ROLL 0 ROLL", Finished, 7, "", "20 10"),
    ("1 PICK", Fault(12, 2, 4), 2, "", ""),
    ("7 1 ROLL", Fault(12, 4, 4), 3, "", ""),
    ("1 2 65535 ROLL", Fault(12, 10, 4), 4, "", ""),
    ("1 2 65535 PICK", Fault(12, 10, 4), 4, "", ""),
    ("1 2 ROT", Fault(12, 4, 3), 3, "", ""),
    ("1 OVER", Fault(12, 2, 4), 2, "", ""),
];

static ARITHMETIC: &[Row] = &[
    ("7 -2 / 7 -2 MOD", Finished, 7, "", "-4 -1"),
    ("-7 -2 /MOD", Finished, 4, "", "-1 3"),
    ("30000 2 3 */", Finished, 5, "", "20000"),
    ("30000 30000 1 */", Fault(17, 14, 2), 4, "", ""),
    ("-32768 1 -1 */", Fault(17, 12, 2), 4, "", ""),
    ("1 2 0 */", Fault(17, 6, 2), 4, "", ""),
    ("1 0 /", Fault(17, 4, 1), 3, "", ""),
    ("1 0 MOD", Fault(17, 4, 3), 3, "", ""),
    ("1 0 /MOD", Fault(17, 4, 4), 3, "", ""),
    ("-32768 -1 MOD", Fault(17, 10, 3), 3, "", ""),
    ("-32768 -32768 32767 */", Fault(17, 20, 2), 4, "", ""),
    ("-7 3 2 */", Finished, 5, "", "65525"),
    (
        "32767 1+ 0 1- -5 2/ 5 2/",
        Finished,
        9,
        "",
        "-32768 -1 -3 2",
    ),
    ("-32768 ABS -5 ABS 5 NEGATE", Finished, 7, "", "-32768 5 -5"),
    ("-1 1 MIN -1 1 MAX", Finished, 7, "", "-1 1"),
    (
        "12 10 AND 12 10 OR 12 10 XOR 0 NOT",
        Finished,
        12,
        "",
        "8 14 6 -1",
    ),
    (
        "3 3 = -1 1 < -1 1 U< -1 1 > 0 0= -1 0<",
        Finished,
        17,
        "",
        "-1 -1 0 0 -1 -1",
    ),
    (
        "-32768 32767 < 1 2 - 300 300 *",
        Finished,
        10,
        "",
        "-1 -1 24464",
    ),
];

static REACH: &[Row] = &[
    (
        "258 PAD ! PAD @ PAD C@ PAD 1+ C@",
        Finished,
        11,
        "",
        "258 2 1",
    ),
    ("65535 PAD ! 2 PAD +! PAD @", Finished, 9, "", "1"),
    ("511 PAD C! PAD @", Finished, 6, "", "255"),
    ("32768 @ 34046 @ 34047 C@", Finished, 7, "", "10 0 0"),
    ("32767 @", Fault(16, 6, 1), 2, "", ""),
    ("34047 @", Fault(16, 6, 1), 2, "", ""),
    ("34048 C@", Fault(16, 6, 2), 2, "", ""),
    ("5 256 !", Fault(16, 6, 1), 3, "", ""),
    ("5 65535 +!", Fault(16, 8, 2), 3, "", ""),
    ("65535 C@", Fault(16, 6, 2), 2, "", ""),
    ("5 0 C!", Fault(16, 4, 2), 3, "", ""),
    ("PAD PAD 2000 CMOVE", Fault(16, 13, 5), 4, "", ""),
    ("0 PAD 1 CMOVE", Fault(16, 8, 5), 4, "", ""),
    ("PAD 65535 1 FILL", Fault(16, 12, 4), 4, "", ""),
    ("33024 1024 7 FILL 34047 C@", Finished, 7, "", "7"),
    (
        "BASE @ BASE PAD HERE",
        Finished,
        6,
        "",
        "10 32768 32784 34048",
    ),
    (
        "5 , HERE 34048 @ 258 C, 34050 C@ HERE",
        Finished,
        11,
        "",
        "34050 5 2 34051 HERE: 34051",
    ),
];

static ALLOTTED: &[Row] = &[
    ("2 ALLOT -2 ALLOT HERE", Finished, 6, "", "34048"),
    ("-1 ALLOT", Fault(21, 3, 5), 2, "", ""),
    (
        "4 ALLOT CREATE A 2 ALLOT -2 ALLOT",
        Finished,
        8,
        "",
        "DP: 1630 HERE: 34052 NEWEST: 1620",
    ),
    (
        "4 ALLOT CREATE A -1 ALLOT",
        Fault(21, 20, 5),
        5,
        "",
        "DP: 1630 HERE: 34052 NEWEST: 1620",
    ),
    ("4 ALLOT CREATE A FORGET A -4 ALLOT", Finished, 7, "", ""),
    ("40000 ALLOT", Fault(21, 6, 5), 2, "", ""),
    (
        "5 , -2 ALLOT 2 ALLOT 34048 @",
        Finished,
        9,
        "",
        "0 HERE: 34050",
    ),
    ("31486 ALLOT 1 C,", Finished, 5, "", "HERE: 65535"),
    ("31487 ALLOT 1 C,", Fault(21, 14, 2), 4, "", "HERE: 65535"),
    ("31486 ALLOT 1 ,", Fault(21, 14, 1), 4, "", "HERE: 65534"),
    (
        "31485 ALLOT VARIABLE X",
        Finished,
        4,
        "",
        "DP: 1630 HERE: 65535 NEWEST: 1620",
    ),
    (
        "31486 ALLOT VARIABLE X",
        Fault(21, 21, 1),
        3,
        "",
        "HERE: 65534",
    ),
    (": X [ 1 ,", Fault(9, 8, 1), 4, "", ""),
    (": X [ 1 C,", Fault(9, 8, 2), 4, "", ""),
    (": X [ 1 ALLOT", Fault(9, 8, 5), 4, "", ""),
    (": X [ ALLOT", Fault(9, 6, 5), 3, "", ""),
];

// 64 numbers.
const ONES: &str =
    "1 1 1 1 1 1 1 1 1 1 1 1 1 1 1 1 1 1 1 1 1 1 1 1 1 1 1 1 1 1 1 1 1 1 1 1 1 1 1 1 1 1 1 1 1 1 1 1 1 1 1 1 1 1 1 1 1 1 1 1 1 1 1 1 ";

static FULL_STACKS: &[Session] = &[
    Session {
        blocks: &[],
        moves: &[Types(ONES, Finished, 65, ""), Types(ONES, Finished, 65, "")],
        left: "ONES: 128",
    },
    Session {
        blocks: &[],
        moves: &[
            Types(ONES, Finished, 65, ""),
            Types(ONES, Finished, 65, ""),
            Types("1", Fault(13, 0, 1), 1, ""),
        ],
        left: "",
    },
    Session {
        blocks: &[],
        moves: &[
            Types(ONES, Finished, 65, ""),
            Types(ONES, Finished, 65, ""),
            Types("DUP", Fault(13, 0, 3), 1, ""),
        ],
        left: "",
    },
    Session {
        blocks: &[],
        moves: &[
            Types(ONES, Finished, 65, ""),
            Types(ONES, Finished, 65, ""),
            Types("HERE", Fault(13, 0, 4), 1, ""),
        ],
        left: "",
    },
    Session {
        blocks: &[],
        moves: &[
            Types(ONES, Finished, 65, ""),
            Types(ONES, Finished, 65, ""),
            Types("DROP 0 ?DUP", Finished, 4, ""),
        ],
        left: "ONES: 127 0",
    },
    Session {
        blocks: &[],
        moves: &[
            Types(ONES, Finished, 65, ""),
            Types(ONES, Finished, 65, ""),
            Types("?DUP", Fault(13, 0, 4), 1, ""),
        ],
        left: "",
    },
    Session {
        blocks: &[],
        moves: &[
            Types(ONES, Finished, 65, ""),
            Types(ONES, Finished, 65, ""),
            Types("127 PICK", Fault(13, 0, 3), 1, ""),
        ],
        left: "",
    },
    Session {
        blocks: &[],
        moves: &[
            Types(ONES, Finished, 65, ""),
            Types(ONES, Finished, 65, ""),
            Types("DROP 126 PICK", Finished, 4, ""),
        ],
        left: "ONES: 128",
    },
    Session {
        blocks: &[],
        moves: &[
            Types(": X R> ;", Finished, 4, ""),
            Types(ONES, Finished, 65, ""),
            Types(ONES, Finished, 65, ""),
            Types("X", Fault(13, 0, 1), 2, ""),
        ],
        left: "DP: 1632 NEWEST: 1620",
    },
];

#[test]
fn data_cells(rt: HostRuntime) {
    rows_hold(&rt, MOVES);
    rows_hold(&rt, ARITHMETIC);
}

#[test]
fn data_space(rt: HostRuntime) {
    rows_hold(&rt, REACH);
    rows_hold(&rt, ALLOTTED);
}

#[test]
fn full_stacks(rt: HostRuntime) {
    sessions_hold(&rt, FULL_STACKS);
}
