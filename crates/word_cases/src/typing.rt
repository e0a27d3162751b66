// Words that type.
use super::trying::{AMPLE, Benches, TypingRow, tables_hold, typing_tables_hold};
use steps::progress::Progress;

const DECIMAL: &[TypingRow] = &[
    (".", "9 0", Ok(("9", "0 "))),
    (".", "7", Ok(("", "7 "))),
    (".", "-1", Ok(("", "-1 "))),
    (".", "65535", Ok(("", "-1 "))),
    (".", "32767", Ok(("", "32767 "))),
    (".", "32768", Ok(("", "-32768 "))),
    (".", "", Err(12)),
    ("U.", "9 0", Ok(("9", "0 "))),
    ("U.", "-1", Ok(("", "65535 "))),
    ("U.", "-32768", Ok(("", "32768 "))),
    ("U.", "", Err(12)),
];

const BINARY: &[TypingRow] = &[
    (".", "5", Ok(("", "101 "))),
    (".", "-32768", Ok(("", "-1000000000000000 "))),
    ("U.", "-1", Ok(("", "1111111111111111 "))),
];

const HEXADECIMAL: &[TypingRow] = &[
    (".", "255", Ok(("", "FF "))),
    (".", "-255", Ok(("", "-FF "))),
    (".", "-32768", Ok(("", "-8000 "))),
    ("U.", "48879", Ok(("", "BEEF "))),
    ("U.", "-1", Ok(("", "FFFF "))),
];

const BASE_36: &[TypingRow] = &[
    (".", "35", Ok(("", "Z "))),
    (".", "36", Ok(("", "10 "))),
    (".", "-1295", Ok(("", "-ZZ "))),
    ("U.", "-1", Ok(("", "1EKF "))),
];

const NO_BASE: &str = "
.  | 5 | fault 18
.  |   | fault 12
U. | 5 | fault 18
U. |   | fault 12
";

// With ABC in data space.
const BYTES: &[TypingRow] = &[
    ("EMIT", "9 65", Ok(("9", "A"))),
    ("EMIT", "193", Ok(("", "A"))),
    ("EMIT", "321", Ok(("", "A"))),
    ("EMIT", "127", Ok(("", "\x7f"))),
    ("EMIT", "-1", Ok(("", "\x7f"))),
    ("EMIT", "128", Ok(("", "\0"))),
    ("EMIT", "", Err(12)),
    ("CR", "9", Ok(("9", "\r\n"))),
    ("SPACES", "9 3", Ok(("9", "   "))),
    ("SPACES", "1", Ok(("", " "))),
    ("SPACES", "0", Ok(("", ""))),
    ("SPACES", "-1", Ok(("", ""))),
    ("SPACES", "32768", Ok(("", ""))),
    ("SPACES", "", Err(12)),
    ("TYPE", "9 34048 3", Ok(("9", "ABC"))),
    ("TYPE", "34049 2", Ok(("", "BC"))),
    ("TYPE", "32768 2", Ok(("", "\n\0"))),
    ("TYPE", "34047 2", Ok(("", "\0A"))),
    (
        "TYPE",
        "34048 2 AT: 34048 195 129",
        Ok(("AT: 34048 195 129", "\u{c1}")),
    ),
    ("TYPE", "34048 0", Ok(("", ""))),
    ("TYPE", "34048 -1", Ok(("", ""))),
    ("TYPE", "0 0", Ok(("", ""))),
    ("TYPE", "0 -1", Ok(("", ""))),
    ("TYPE", "65535 32768", Ok(("", ""))),
    ("TYPE", "34048 4", Err(16)),
    ("TYPE", "34051 1", Err(16)),
    ("TYPE", "34048 32767", Err(16)),
    ("TYPE", "32767 1", Err(16)),
    ("TYPE", "0 1", Err(16)),
    ("TYPE", "34048", Err(12)),
    ("TYPE", "", Err(12)),
];

// The count byte and the text lie from 1618 up to DP.
const TEXTS: &[TypingRow] = &[
    (
        "(.\")",
        "9 CODE: 3 65 66 67",
        Ok(("9 CODE: 3 65 66 67 IP: 1622", "ABC")),
    ),
    (
        "(.\")",
        "CODE: 1 65 66 67",
        Ok(("CODE: 1 65 66 67 IP: 1620", "A")),
    ),
    (
        "(.\")",
        "CODE: 2 195 129",
        Ok(("CODE: 2 195 129 IP: 1621", "\u{c1}")),
    ),
    ("(.\")", "CODE: 0", Ok(("CODE: 0 IP: 1619", ""))),
    ("(.\")", "CODE: 3 65 66", Err(22)),
    ("(.\")", "CODE: 1", Err(22)),
    ("(.\")", "CODE: 255 65", Err(22)),
    ("(.\")", "", Err(22)),
    ("(.\")", "IP: 255", Err(22)),
    ("(.\")", "IP: 65535", Err(22)),
];

// Words that type more than there is ever space for.
const TOO_MUCH: &[(&str, &str)] = &[
    ("SPACES", "65"),
    ("SPACES", "32767"),
    ("TYPE", "32768 65"),
    ("TYPE", "32768 1280"),
];

#[test]
fn typing(rt: HostRuntime) {
    typing_tables_hold(
        &rt,
        &[
            ("", DECIMAL),
            ("AT: 32768 2 0", BINARY),
            ("AT: 32768 16 0", HEXADECIMAL),
            ("AT: 32768 36 0", BASE_36),
            ("HERE: 34051 AT: 34048 65 66 67", BYTES),
            ("IP: 1618", TEXTS),
        ],
    );
    tables_hold(
        &rt,
        &[
            ("AT: 32768 0 0", NO_BASE),
            ("AT: 32768 1 0", NO_BASE),
            ("AT: 32768 37 0", NO_BASE),
            ("AT: 32768 10 1", NO_BASE),
            ("AT: 32768 255 255", NO_BASE),
        ],
    );
}

#[test]
fn too_much(rt: HostRuntime) {
    let mut benches = Benches::on("");
    for &(word, before) in TOO_MUCH {
        benches.compare(&rt, word, AMPLE, before, Ok(Progress::Full), (before, ""));
    }
}
