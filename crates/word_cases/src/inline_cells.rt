// Words that read the cell at IP, which lies at 1618 where nothing else is told; DP is 1620.
use super::trying::tables_hold;

// The cell holds 1650.
const BRANCHES: &str = "
(LIT)   | 9 R: 8     | 9 1650 R: 8 IP: 1620
(LIT)   | FIVES: 127 | FIVES: 127 1650 IP: 1620
(LIT)   | FIVES: 128 | fault 13
BRANCH  | 9 R: 8     | 9 R: 8 IP: 1650
?BRANCH | 9 0 R: 8   | 9 R: 8 IP: 1650
?BRANCH | 9 1 R: 8   | 9 R: 8 IP: 1620
?BRANCH | -1         | IP: 1620
?BRANCH | 256        | IP: 1620
?BRANCH | R: 8       | fault 12
";

// The same: a loop keeps the address behind it, the limit and the index.
const LOOPS: &str = "
(DO)    | 10 0                    | R: 1650 10 0 IP: 1620
(DO)    | 9 -1 1 R: 8             | 9 R: 8 1650 -1 1 IP: 1620
(DO)    | 1 2 RFIVES: 125         | RFIVES: 125 1650 1 2 IP: 1620
(DO)    | 1 2 RFIVES: 126         | fault 15
(DO)    | 1 2 RFIVES: 128         | fault 15
(DO)    | 10                      | fault 12
(DO)    | 10 RFIVES: 128          | fault 12
(LOOP)  | 9 R: 8 1700 10 3        | 9 R: 8 1700 10 4 IP: 1650
(LOOP)  | 9 R: 8 1700 10 8        | 9 R: 8 1700 10 9 IP: 1650
(LOOP)  | 9 R: 8 1700 10 9        | 9 R: 8 IP: 1620
(LOOP)  | R: 1700 10 10           | R: 1700 10 11 IP: 1650
(LOOP)  | R: 1700 0 0             | R: 1700 0 1 IP: 1650
(LOOP)  | R: 1700 0 -2            | R: 1700 0 -1 IP: 1650
(LOOP)  | R: 1700 0 -1            | IP: 1620
(LOOP)  | R: 1700 32768 32767     | IP: 1620
(LOOP)  | R: 1700 5 65535         | R: 1700 5 0 IP: 1650
(LOOP)  | R: 10 9                 | fault 14
(LOOP)  |                         | fault 14
(+LOOP) | 9 2 R: 8 1700 10 7      | 9 R: 8 1700 10 9 IP: 1650
(+LOOP) | 9 3 R: 8 1700 10 7      | 9 R: 8 IP: 1620
(+LOOP) | 4 R: 1700 10 7          | IP: 1620
(+LOOP) | 1 R: 1700 10 9          | IP: 1620
(+LOOP) | -1 R: 1700 10 9         | R: 1700 10 8 IP: 1650
(+LOOP) | -1 R: 1700 -3 -2        | R: 1700 -3 -3 IP: 1650
(+LOOP) | -1 R: 1700 -3 -3        | IP: 1620
(+LOOP) | -3 R: 1700 0 3          | R: 1700 0 0 IP: 1650
(+LOOP) | -4 R: 1700 0 3          | IP: 1620
(+LOOP) | 0 R: 1700 10 3          | R: 1700 10 3 IP: 1650
(+LOOP) | 0 R: 1700 10 9          | R: 1700 10 9 IP: 1650
(+LOOP) | 0 R: 1700 10 10         | R: 1700 10 10 IP: 1650
(+LOOP) | 32767 R: 1700 10 10     | R: 1700 10 -32759 IP: 1650
(+LOOP) | -32768 R: 1700 10 10    | IP: 1620
(+LOOP) | -32768 R: 1700 0 -32768 | R: 1700 0 0 IP: 1650
(+LOOP) | 32767 R: 1700 0 -32768  | R: 1700 0 -1 IP: 1650
(+LOOP) | 32767 R: 1700 0 -32767  | IP: 1620
(+LOOP) | 1 R: 10 9               | fault 14
(+LOOP) | R: 10 9                 | fault 12
";

// The cell holds 0: where IP becomes 0, the return stack is emptied.
const TO_ZERO: &str = "
(LIT)   | 9 R: 8             | 9 0 R: 8 IP: 1620
BRANCH  | 9 R: 4 5           | 9 IP: 0
?BRANCH | 9 0 R: 4 5         | 9 IP: 0
?BRANCH | 9 1 R: 4 5         | 9 R: 4 5 IP: 1620
(DO)    | 10 0 R: 8          | R: 8 0 10 0 IP: 1620
(LOOP)  | 9 R: 8 1700 10 3   | 9 IP: 0
(LOOP)  | 9 R: 8 1700 10 9   | 9 R: 8 IP: 1620
(+LOOP) | 9 1 R: 8 1700 10 3 | 9 IP: 0
";

// The cell holds 65535.
const TO_THE_TOP: &str = "
(LIT)  |      | -1 IP: 1620
BRANCH | R: 8 | R: 8 IP: 65535
";

// Where the cell may lie; at 1616 is the last kernel word's first parameter cell.
const PLACES: &str = "
(LIT) | IP: 1618  | 1650 IP: 1620
(LIT) | IP: 1619  | fault 22
(LIT) | IP: 1620  | fault 22
(LIT) | IP: 1616  | 34048 IP: 1618
(LIT) | IP: 256   | 0 IP: 258
(LIT) | IP: 255   | fault 22
(LIT) | IP: 0     | fault 22
(LIT) | IP: 32767 | fault 22
(LIT) | IP: 65535 | fault 22
";

// IP is 1619, so that the cell is not whole: which fault comes first.
const NOT_WHOLE: &str = "
(LIT)   | FIVES: 128       | fault 13
BRANCH  |                  | fault 22
?BRANCH | 1                | fault 22
?BRANCH | 0                | fault 22
?BRANCH |                  | fault 12
(DO)    | 10 0             | fault 22
(DO)    | 10               | fault 12
(DO)    | 10 0 RFIVES: 126 | fault 15
(LOOP)  | R: 1700 10 3     | fault 22
(LOOP)  | R: 1700 10 9     | fault 22
(LOOP)  | R: 10 3          | fault 14
(+LOOP) | 1 R: 1700 10 3   | fault 22
(+LOOP) | R: 1700 10 3     | fault 12
(+LOOP) | 1 R: 10 3        | fault 14
";

#[test]
fn inline_cells(rt: HostRuntime) {
    tables_hold(
        &rt,
        &[
            ("CODE: 114 6 IP: 1618", BRANCHES),
            ("CODE: 114 6 IP: 1618", LOOPS),
            ("CODE: 0 0 IP: 1618", TO_ZERO),
            ("CODE: 255 255 IP: 1618", TO_THE_TOP),
            ("CODE: 114 6", PLACES),
            ("CODE: 114 6 IP: 1619", NOT_WHOLE),
        ],
    );
}
