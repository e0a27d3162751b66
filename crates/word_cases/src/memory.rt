// Words that fetch and store.
use super::trying::tables_hold;

// With four bytes of data space.
const FETCHES: &str = "
@  | 34048   | 513
@  | 9 34049 | 9 65282
@  | 34050   | -1
@  | 34051   | fault 16
@  | 34052   | fault 16
@  | 34047   | 256
@  | 32768   | 10
@  | 32767   | fault 16
@  | 0       | fault 16
@  | 65535   | fault 16
@  |         | fault 12
C@ | 34048   | 1
C@ | 9 34051 | 9 255
C@ | 34052   | fault 16
C@ | 34047   | 0
C@ | 32768   | 10
C@ | 32767   | fault 16
C@ | 65535   | fault 16
C@ |         | fault 12
";

// With no data space.
const FETCHES_AT_BOOT: &str = "
@  | 34046 | 0
@  | 34047 | fault 16
@  | 34048 | fault 16
C@ | 34047 | 0
C@ | 34048 | fault 16
";

// With six bytes of data space.
const STORES: &str = "
!  | 513 34048                    | AT: 34048 1 2
!  | 9 -2 34049 AT: 34048 7 0 0 7 | 9 AT: 34048 7 254 255 7
!  | 513 34052                    | AT: 34052 1 2
!  | 513 34053                    | fault 16
!  | 513 34054                    | fault 16
!  | 513 34047                    | AT: 34047 1 2
!  | 513 32767                    | fault 16
!  | 513 65535                    | fault 16
!  | 34048                        | fault 12
!  |                              | fault 12
+! | 1 34048 AT: 34048 255 0      | AT: 34048 0 1
+! | 9 1 34048 AT: 34048 255 255  | 9
+! | -2 34048 AT: 34048 1 0       | AT: 34048 255 255
+! | -1 34048 AT: 34048 0 128     | AT: 34048 255 127
+! | 1 34053                      | fault 16
+! | 1 32767                      | fault 16
+! | 34048                        | fault 12
C! | 9 513 34049 AT: 34048 7 7 7  | 9 AT: 34048 7 1 7
C! | -256 34048 AT: 34048 7 7     | AT: 34048 0 7
C! | 7 34053                      | AT: 34053 7
C! | 7 34054                      | fault 16
C! | 7 32767                      | fault 16
C! | 34048                        | fault 12
";

// The same: what overlaps is repeated upwards, and no bytes lie anywhere.
const MANY_BYTES: &str = "
CMOVE | 34048 34051 3 AT: 34048 1 2 3         | AT: 34048 1 2 3 1 2 3
CMOVE | 9 34048 34049 4 AT: 34048 1 2 3 4 5 6 | 9 AT: 34048 1 1 1 1 1 6
CMOVE | 34048 34050 3 AT: 34048 1 2 3 4 5 6   | AT: 34048 1 2 1 2 1 6
CMOVE | 34049 34048 4 AT: 34048 1 2 3 4 5 6   | AT: 34048 2 3 4 5 5 6
CMOVE | 34048 34048 6 AT: 34048 1 2 3 4 5 6   | AT: 34048 1 2 3 4 5 6
CMOVE | 32768 34052 2                         | AT: 34052 10 0
CMOVE | 34048 34049 0 AT: 34048 1 2           | AT: 34048 1 2
CMOVE | 0 65535 0                             |
CMOVE | 34053 34048 2                         | fault 16
CMOVE | 34048 34053 2                         | fault 16
CMOVE | 32767 34048 1                         | fault 16
CMOVE | 34048 32767 1                         | fault 16
CMOVE | 34048 34048 65535                     | fault 16
CMOVE | 34048 0                               | fault 12
FILL  | 9 34049 2 7 AT: 34048 1 1 1 1         | 9 AT: 34048 1 7 7 1
FILL  | 34048 6 513                           | AT: 34048 1 1 1 1 1 1
FILL  | 34048 2 -1                            | AT: 34048 255 255
FILL  | 34048 0 7                             |
FILL  | 34054 0 7                             |
FILL  | 0 0 7                                 |
FILL  | 65535 0 7                             |
FILL  | 34048 7 7                             | fault 16
FILL  | 34053 2 7                             | fault 16
FILL  | 34048 65535 7                         | fault 16
FILL  | 32767 1 7                             | fault 16
FILL  | 34048 0                               | fault 12
";

const BELOW_DATA_SPACE: &str = "
!       | 513 32768         | AT: 32768 1 2
C!      | 16 32768          | AT: 32768 16 0
+!      | -8 32768          | AT: 32768 2 0
HEX     | 9                 | 9 AT: 32768 16 0
HEX     | AT: 32768 1 255   | AT: 32768 16 0
DECIMAL | AT: 32768 255 255 | AT: 32768 10 0
DECIMAL | 9 AT: 32768 16 0  | 9
!       | 513 32770         | AT: 32770 1 2
!       | 513 32784         | AT: 32784 1 2
!       | 513 33023         | AT: 33023 1 2
C!      | 7 34047           | AT: 34047 7
C!      | 7 34048           | fault 16
FILL    | 32768 1280 0      | AT: 32768 0
FILL    | 32768 1281 0      | fault 16
CMOVE   | 32768 32770 4     | AT: 32768 10 0 10 0 10 0
";

// With HERE as high as it goes.
const AT_THE_END: &str = "
@     | 65533             | 0
@     | 65534             | fault 16
@     | 65535             | fault 16
C@    | 65534             | 0
C@    | 65535             | fault 16
!     | 513 65533         | AT: 65533 1 2
!     | 513 65534         | fault 16
!     | 513 65535         | fault 16
+!    | 1 65533           | AT: 65533 1
+!    | 1 65534           | fault 16
C!    | 7 65534           | AT: 65534 7
C!    | 7 65535           | fault 16
FILL  | 65533 2 7         | AT: 65533 7 7
FILL  | 65533 3 7         | fault 16
FILL  | 65533 4 7         | fault 16
FILL  | 65535 0 7         |
FILL  | 32768 32767 0     | AT: 32768 0
CMOVE | 32768 32768 32767 |
CMOVE | 32768 32769 32767 | fault 16
CMOVE | 32768 32768 32768 | fault 16
";

#[test]
fn memory(rt: HostRuntime) {
    tables_hold(
        &rt,
        &[
            ("HERE: 34052 AT: 34048 1 2 255 255", FETCHES),
            ("", FETCHES_AT_BOOT),
            ("HERE: 34054", STORES),
            ("HERE: 34054", MANY_BYTES),
            ("", BELOW_DATA_SPACE),
            ("HERE: 65535", AT_THE_END),
        ],
    );
}
