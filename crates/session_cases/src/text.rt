// Words and numbers of the text, comments, and what is typed.
use super::trying::rows_hold;
use line_bench::end::End::{Fault, Finished};
use session_bench::sessions::Row;

// The lines of the rule book.
static EXAMPLES: &[Row] = &[
    ("2 3 + .", Finished, 5, "5 ", ""),
    ("-7 2 /MOD . .", Finished, 6, "-4 1 ", ""),
    ("-32768 -1 /", Fault(17, 10, 1), 3, "", ""),
    ("65535 .", Finished, 3, "-1 ", ""),
    ("65536", Fault(7, 0, 5), 1, "", ""),
    (
        ": SQ DUP * ; 4 SQ .",
        Finished,
        11,
        "16 ",
        "DP: 1635 NEWEST: 1620",
    ),
    (
        ": V -3 0 DO I . -1 +LOOP ; V",
        Finished,
        31,
        "0 -1 -2 -3 ",
        "DP: 1654 NEWEST: 1620",
    ),
    ("VARIABLE X FORGET X", Finished, 3, "", ""),
    ("31487 ALLOT", Finished, 3, "", "HERE: 65535"),
    ("31488 ALLOT", Fault(21, 6, 5), 2, "", ""),
    ("15 BLOCK", Finished, 3, "", "33024 HELD: 15"),
    ("16 BLOCK", Fault(26, 3, 5), 2, "", ""),
    ("0 LOAD", Fault(25, 2, 4), 2, "", ""),
    (
        "CREATE ABCDEFGHIJKLMNOPQRSTUVWXYZ12345",
        Finished,
        2,
        "",
        "DP: 1660 NEWEST: 1620",
    ),
    (
        "CREATE ABCDEFGHIJKLMNOPQRSTUVWXYZ123456",
        Fault(5, 7, 32),
        1,
        "",
        "",
    ),
];

static NUMBERS: &[Row] = &[
    (
        "-32768 -0 0000000000000000000000000000012 -",
        Finished,
        5,
        "",
        "-32768 -12",
    ),
    ("-32769", Fault(7, 0, 6), 1, "", ""),
    ("--5", Fault(7, 0, 3), 1, "", ""),
    ("1A", Fault(7, 0, 2), 1, "", ""),
    (
        "11111111111111111111111111111111",
        Fault(5, 0, 32),
        1,
        "",
        "",
    ),
    ("0000000000000000000000000000000", Finished, 2, "", "0"),
    ("HEX ff FF DECIMAL", Finished, 5, "", "255 255"),
    ("2 BASE ! 101 DECIMAL", Finished, 6, "", "5"),
    ("36 BASE ! z -zz DECIMAL", Finished, 7, "", "35 -1295"),
    ("1 BASE ! 0", Fault(7, 9, 1), 4, "", ""),
    ("37 BASE ! 0", Fault(7, 10, 1), 4, "", ""),
];

static WORDS: &[Row] = &[
    ("-", Fault(12, 0, 1), 1, "", ""),
    ("A\x7f", Fault(5, 0, 2), 1, "", ""),
    ("A\u{c8}B 1", Fault(5, 0, 4), 1, "", ""),
    ("1\t2\03\x1f4", Finished, 5, "", "1 2 3 4"),
    ("dup", Fault(12, 0, 3), 1, "", ""),
    ("", Finished, 1, "", ""),
    ("   ", Finished, 1, "", ""),
];

static COMMENTS: &[Row] = &[
    ("( hello) 5 ( ) ( a)6", Finished, 6, "", "5 6"),
    ("(", Fault(4, 0, 1), 1, "", ""),
    ("1 ( abc", Fault(4, 2, 1), 2, "", ""),
    ("(2)", Fault(7, 0, 3), 1, "", ""),
];

static TYPED: &[Row] = &[
    ("5 1 BASE ! .", Fault(18, 11, 1), 5, "", ""),
    ("5 37 BASE ! U.", Fault(18, 12, 2), 5, "", ""),
    ("1 BASE ! .", Fault(12, 9, 1), 4, "", ""),
    ("-1 U. -1 HEX U. DECIMAL", Finished, 7, "65535 FFFF ", ""),
    ("-32768 2 BASE ! .", Finished, 6, "-1000000000000000 ", ""),
    ("0 . 35 36 BASE ! . DECIMAL", Finished, 9, "0 Z ", ""),
    ("65 EMIT 193 EMIT", Finished, 5, "AA", ""),
    (
        "CR 3 SPACES -1 SPACES 0 SPACES 32768 SPACES",
        Finished,
        10,
        "\r\n   ",
        "",
    ),
    ("0 -1 TYPE 0 32768 TYPE", Finished, 7, "", ""),
    ("0 1 TYPE", Fault(16, 4, 4), 3, "", ""),
    ("EMIT", Fault(12, 0, 4), 1, "", ""),
    (
        "65 PAD C! PAD PAD 1+ 3 CMOVE PAD 4 TYPE",
        Finished,
        12,
        "AAAA",
        "",
    ),
    ("PAD 3 321 FILL PAD 4 TYPE", Finished, 8, "AAA\0", ""),
    ("0 0 0 CMOVE 0 0 0 FILL 0 0 TYPE", Finished, 12, "", ""),
];

static QUOTED: &[Row] = &[
    (
        ": X .\" HI\" ; X",
        Finished,
        7,
        "HI",
        "DP: 1635 NEWEST: 1620",
    ),
    (
        ": X .\"  A\" .\" \" ; X",
        Finished,
        9,
        " A",
        "DP: 1638 NEWEST: 1620",
    ),
    (".\" HI\"", Fault(8, 0, 2), 1, "", ""),
    (".\" HI", Fault(4, 0, 2), 1, "", ""),
    (": X .\"", Fault(4, 4, 2), 2, "", ""),
];

#[test]
fn words_and_numbers(rt: HostRuntime) {
    rows_hold(&rt, EXAMPLES);
    rows_hold(&rt, NUMBERS);
    rows_hold(&rt, WORDS);
    rows_hold(&rt, COMMENTS);
}

#[test]
fn typing(rt: HostRuntime) {
    rows_hold(&rt, TYPED);
    rows_hold(&rt, QUOTED);
}
