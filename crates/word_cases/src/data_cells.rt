// Words on data cells alone.
use super::trying::tables_hold;

const MOVES: &str = "
DUP   | 7            | 7 7
DUP   | 0            | 0 0
DUP   |              | fault 12
DUP   | FIVES: 127   | FIVES: 128
DUP   | FIVES: 128   | fault 13
DROP  | 1 2          | 1
DROP  | 1            |
DROP  |              | fault 12
DROP  | FIVES: 128   | FIVES: 127
SWAP  | 9 1 2        | 9 2 1
SWAP  | 1            | fault 12
SWAP  |              | fault 12
SWAP  | FIVES: 128   | FIVES: 128
OVER  | 9 1 2        | 9 1 2 1
OVER  | 1            | fault 12
OVER  | FIVES: 127   | FIVES: 128
OVER  | FIVES: 128   | fault 13
ROT   | 9 1 2 3      | 9 2 3 1
ROT   | 1 2          | fault 12
ROT   | FIVES: 128   | FIVES: 128
?DUP  | -1           | -1 -1
?DUP  | 7 0          | 7 0
?DUP  |              | fault 12
?DUP  | FIVES: 127   | FIVES: 128
?DUP  | FIVES: 127 0 | FIVES: 127 0
?DUP  | FIVES: 127 1 | fault 13
DEPTH |              | 0
DEPTH | 8 9          | 8 9 2
DEPTH | FIVES: 127   | FIVES: 127 127
DEPTH | FIVES: 128   | fault 13
";

// The number on top counts from 0, without itself.
const REACHING_DOWN: &str = "
PICK | 10 20 30 0       | 10 20 30 30
PICK | 10 20 30 1       | 10 20 30 20
PICK | 10 20 30 2       | 10 20 30 10
PICK | 10 20 30 3       | fault 12
PICK | 10 20 30 65535   | fault 12
PICK | 10 20 30 -32768  | fault 12
PICK | 0                | fault 12
PICK |                  | fault 12
PICK | 7 FIVES: 126 126 | 7 FIVES: 126 7
PICK | 7 FIVES: 126 127 | fault 12
PICK | FIVES: 127 128   | fault 12
ROLL | 10 20 30 0       | 10 20 30
ROLL | 10 20 30 1       | 10 30 20
ROLL | 10 20 30 2       | 20 30 10
ROLL | 9 10 20 30 2     | 9 20 30 10
ROLL | 10 20 30 3       | fault 12
ROLL | 10 20 30 65535   | fault 12
ROLL | 0                | fault 12
ROLL |                  | fault 12
ROLL | 7 FIVES: 126 126 | FIVES: 126 7
ROLL | 7 FIVES: 126 127 | fault 12
";

const ONE_OF_TWO: &str = "
+   | 2 3           | 5
+   | 9 2 3         | 9 5
+   | 32767 1       | -32768
+   | 65535 1       | 0
+   | -32768 -32768 | 0
+   | 1             | fault 12
+   |               | fault 12
-   | 2 3           | -1
-   | -32768 1      | 32767
-   | 0 -32768      | -32768
-   | 0 65535       | 1
-   | 1             | fault 12
*   | 3 -4          | -12
*   | -1 -1         | 1
*   | 256 256       | 0
*   | 300 300       | 24464
*   | 32767 2       | -2
*   | -32768 -1     | -32768
*   | 1             | fault 12
MIN | -1 1          | -1
MIN | 32767 32768   | -32768
MIN | 5 5           | 5
MIN | 1             | fault 12
MAX | -1 1          | 1
MAX | 32767 32768   | 32767
MAX | 0 65535       | 0
MAX | 1             | fault 12
AND | 255 3855      | 15
AND | -1 12345      | 12345
AND | 1 2           | 0
AND | 1             | fault 12
OR  | 255 3855      | 4095
OR  | -32768 32767  | -1
OR  | 0 0           | 0
OR  | 1             | fault 12
XOR | 255 3855      | 4080
XOR | -1 -1         | 0
XOR | -1 0          | -1
XOR | 1             | fault 12
";

const COMPARISONS: &str = "
=  | 5 5          | -1
=  | 5 6          | 0
=  | -1 65535     | -1
=  | 9 0 256      | 9 0
=  | 1            | fault 12
<  | 1 2          | -1
<  | 2 2          | 0
<  | 65535 0      | -1
<  | 32768 32767  | -1
<  | 32767 32768  | 0
<  | 1            | fault 12
>  | 2 1          | -1
>  | 2 2          | 0
>  | 0 65535      | -1
>  | 32767 32768  | -1
>  | 32768 32767  | 0
>  | 1            | fault 12
U< | 1 2          | -1
U< | 7 7          | 0
U< | 0 -1         | -1
U< | -1 0         | 0
U< | 32767 -32768 | -1
U< | 1            | fault 12
0= | 0            | -1
0= | 1            | 0
0= | -32768       | 0
0= |              | fault 12
0< | 65535        | -1
0< | 32768        | -1
0< | 32767        | 0
0< | 0            | 0
0< |              | fault 12
";

const ONE_OF_ONE: &str = "
1+     | 9 0    | 9 1
1+     | 32767  | -32768
1+     | 65535  | 0
1+     |        | fault 12
1-     | 0      | -1
1-     | -32768 | 32767
1-     |        | fault 12
2/     | 7      | 3
2/     | -7     | -4
2/     | 1      | 0
2/     | -1     | -1
2/     | 32767  | 16383
2/     | -32768 | -16384
2/     |        | fault 12
NEGATE | 5      | -5
NEGATE | 0      | 0
NEGATE | -32768 | -32768
NEGATE |        | fault 12
ABS    | -5     | 5
ABS    | 5      | 5
ABS    | -32767 | 32767
ABS    | -32768 | -32768
ABS    |        | fault 12
NOT    | 0      | -1
NOT    | -1     | 0
NOT    | 5      | -6
NOT    |        | fault 12
";

// Floored: the remainder is 0 or has the divisor's sign.
const DIVISIONS: &str = "
/    | 9 7 2                | 9 3
/    | -7 2                 | -4
/    | 7 -2                 | -4
/    | -7 -2                | 3
/    | -8 2                 | -4
/    | 6 -3                 | -2
/    | 0 -1                 | 0
/    | 1 32767              | 0
/    | -1 32767             | -1
/    | 32767 -32768         | -1
/    | -32768 32767         | -2
/    | -32768 1             | -32768
/    | -32768 -1            | fault 17
/    | -32767 -1            | 32767
/    | 5 0                  | fault 17
/    | 0 0                  | fault 17
/    | 0                    | fault 12
/    |                      | fault 12
MOD  | 7 2                  | 1
MOD  | -7 2                 | 1
MOD  | 7 -2                 | -1
MOD  | -7 -2                | -1
MOD  | -8 2                 | 0
MOD  | 1 -32768             | -32767
MOD  | -1 32767             | 32766
MOD  | 32767 -32768         | -1
MOD  | -32768 32767         | 32766
MOD  | -32768 -1            | fault 17
MOD  | 5 0                  | fault 17
MOD  | 0                    | fault 12
/MOD | 7 2                  | 1 3
/MOD | -7 2                 | 1 -4
/MOD | 7 -2                 | -1 -4
/MOD | -7 -2                | -1 3
/MOD | 9 -32768 1           | 9 0 -32768
/MOD | -32768 -1            | fault 17
/MOD | 5 0                  | fault 17
/MOD | 0                    | fault 12
*/   | 9 3 4 2              | 9 6
*/   | -7 1 2               | -4
*/   | 7 1 -2               | -4
*/   | 20000 3 4            | 15000
*/   | 300 -300 7           | -12858
*/   | 256 256 4            | 16384
*/   | 256 256 2            | fault 17
*/   | -256 256 2           | -32768
*/   | 32767 32767 32767    | 32767
*/   | -32768 -32768 -32768 | -32768
*/   | -32768 -32768 32767  | fault 17
*/   | -32768 -1 -1         | -32768
*/   | -32768 -1 1          | fault 17
*/   | 7 1 0                | fault 17
*/   | 0 0                  | fault 12
";

const ADDRESSES: &str = "
BASE |            | 32768
BASE | FIVES: 128 | fault 13
PAD  | 1          | 1 32784
PAD  | FIVES: 128 | fault 13
HERE | 1          | 1 34048
HERE | FIVES: 128 | fault 13
";

#[test]
fn data_cells(rt: HostRuntime) {
    tables_hold(
        &rt,
        &[
            ("", MOVES),
            ("", REACHING_DOWN),
            ("", ONE_OF_TWO),
            ("", COMPARISONS),
            ("", ONE_OF_ONE),
            ("", DIVISIONS),
            ("", ADDRESSES),
        ],
    );
}
