// Words by which data space grows and shrinks.
use super::trying::tables_hold;

const APPENDED: &str = "
,  | 9 513            | 9 HERE: 34050 AT: 34048 1 2
,  | -2 HERE: 34051   | HERE: 34053 AT: 34051 254 255
,  | -1 HERE: 65533   | HERE: 65535 AT: 65533 255 255
,  | 1 HERE: 65534    | fault 21
,  | 1 HERE: 65535    | fault 21
,  | HERE: 65535      | fault 12
C, | 9 513            | 9 HERE: 34049 AT: 34048 1
C, | -256 AT: 34048 7 | HERE: 34049
C, | 255 HERE: 65534  | HERE: 65535 AT: 65534 255
C, | 1 HERE: 65535    | fault 21
C, | HERE: 65535      | fault 12
";

// What lies behind HERE is cleared as far as it is added.
const ALLOTTED: &str = "
ALLOT | 0                              |
ALLOT | 9 1 AT: 34048 7 7              | 9 HERE: 34049
ALLOT | 3 AT: 34048 7 7 7 7            | HERE: 34051
ALLOT | 31487 AT: 34048 7              | HERE: 65535
ALLOT | 31488                          | fault 21
ALLOT | 32767                          | fault 21
ALLOT | -1                             | fault 21
ALLOT | -32768                         | fault 21
ALLOT | 2 HERE: 34051 AT: 34050 7 7 7  | HERE: 34053 AT: 34050 7
ALLOT | -1 HERE: 34051 AT: 34048 7 7 7 | HERE: 34050 AT: 34048 7 7
ALLOT | -3 HERE: 34051                 |
ALLOT | -4 HERE: 34051                 | fault 21
ALLOT | 1 HERE: 65534 AT: 65534 7      | HERE: 65535
ALLOT | 0 HERE: 65535                  | HERE: 65535
ALLOT | 1 HERE: 65535                  | fault 21
ALLOT | 32767 HERE: 65535              | fault 21
ALLOT | -31487 HERE: 65535             |
ALLOT | -31488 HERE: 65535             | fault 21
ALLOT | -32768 HERE: 65535             | fault 21
ALLOT | HERE: 65535                    | fault 12
";

// The newest entry is X, whose first parameter cell holds 34060.
const ABOVE_THE_NEWEST: &str = "
ALLOT | 0 HERE: 34060      | HERE: 34060
ALLOT | -1 HERE: 34060     | fault 21
ALLOT | -1 HERE: 34061     | HERE: 34060
ALLOT | -2 HERE: 34061     | fault 21
ALLOT | -22 HERE: 34070    | fault 21
ALLOT | 5 HERE: 34070      | HERE: 34075
ALLOT | -31475 HERE: 65535 | HERE: 34060
ALLOT | -31476 HERE: 65535 | fault 21
";

// It holds less than data space begins at.
const ABOVE_DATA_SPACE: &str = "
ALLOT | -2 HERE: 34050 |
ALLOT | -3 HERE: 34050 | fault 21
";

// The newest entry: view, link, count byte, name, code cell and first parameter cell.
#[test]
fn growing(rt: HostRuntime) {
    tables_hold(
        &rt,
        &[
            ("", APPENDED),
            ("", ALLOTTED),
            (
                "CODE: 0 0 0 0 129 216 201 0 12 133 NEWEST: 1620",
                ABOVE_THE_NEWEST,
            ),
            (
                "CODE: 0 0 0 0 129 216 201 0 100 0 NEWEST: 1620",
                ABOVE_DATA_SPACE,
            ),
        ],
    );
}
