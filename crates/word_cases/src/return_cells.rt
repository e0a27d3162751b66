// Words on the return stack. IP is 1600 before each.
use super::trying::tables_hold;

const RETURNS: &str = "
EXIT  | 9 R: 300 1700            | 9 R: 300 IP: 1700
EXIT  | R: 1700                  | IP: 1700
EXIT  | R: 300 65535             | R: 300 IP: 65535
EXIT  | 9 R: 300 400 0           | 9 IP: 0
EXIT  | R: 0                     | IP: 0
EXIT  | 9                        | fault 14
>R    | 1 2 R: 7                 | 1 R: 7 2
>R    | 0                        | R: 0
>R    | 1 RFIVES: 127            | RFIVES: 127 1
>R    | R: 7                     | fault 12
>R    | 1 RFIVES: 128            | fault 15
>R    | RFIVES: 128              | fault 12
R>    | 1 R: 7 2                 | 1 2 R: 7
R>    | FIVES: 127 R: 7          | FIVES: 127 7
R>    | 1                        | fault 14
R>    | FIVES: 128 R: 7          | fault 13
R>    | FIVES: 128               | fault 13
R@    | 1 R: 7 2                 | 1 2 R: 7 2
R@    | 1                        | fault 14
R@    | FIVES: 128 R: 7          | fault 13
R@    | FIVES: 128               | fault 13
I     | R: 1700 10 3             | 3 R: 1700 10 3
I     | R: 3                     | 3 R: 3
I     | 9                        | fault 14
I     | FIVES: 128               | fault 13
J     | 9 R: 1700 10 3 1750 20 7 | 9 3 R: 1700 10 3 1750 20 7
J     | R: 4 1 2 3               | 4 R: 4 1 2 3
J     | R: 1 2 3                 | fault 14
J     | FIVES: 128 R: 1 2 3      | fault 13
LEAVE | 9 R: 8 1700 10 3         | 9 R: 8 IP: 1700
LEAVE | R: 1700 10 3             | IP: 1700
LEAVE | 9 R: 8 0 10 3            | 9 IP: 0
LEAVE | R: 10 3                  | fault 14
LEAVE |                          | fault 14
";

#[test]
fn return_cells(rt: HostRuntime) {
    tables_hold(&rt, &[("IP: 1600", RETURNS)]);
}
