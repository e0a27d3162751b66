// Created words and constants by their token, a number here, and >BODY. No name lies before their code cells: none of these reads one.
use super::trying::tables_hold;

// At 1618 a created word, at 1624 a constant, at 1630 a word with DOES> code, at 1636 a colon word, at 1640 an unknown code, and at 1644 a
// constant that DP, 1649, cuts off.
const CODES: &str =
    "CODE: 202 0 12 133 0 0 203 0 12 133 7 0 205 0 12 133 82 6 201 0 12 133 206 0 12 133 203 0 12 133 9";

const TOKENS: &str = "
1618  | 9          | 9 34060
1618  | FIVES: 127 | FIVES: 127 34060
1618  | FIVES: 128 | fault 13
1624  | 9          | 9 7
1624  | FIVES: 127 | FIVES: 127 7
1624  | FIVES: 128 | fault 13
1644  | 9          | fault 22
1644  | FIVES: 128 | fault 22
>BODY | 9 1618     | 9 34060
>BODY | 1630       | 34060
>BODY | 1624       | fault 22
>BODY | 1636       | fault 22
>BODY | 1640       | fault 22
>BODY | 1619       | fault 22
>BODY | 1648       | fault 22
>BODY | 1649       | fault 22
>BODY | 288        | fault 22
>BODY | 255        | fault 22
>BODY | 0          | fault 22
>BODY | 32767      | fault 22
>BODY | 65535      | fault 22
>BODY |            | fault 12
";

// A created word up to its first parameter cell, and one that ends before.
const WHOLE: &str = "
1618  |      | 34060
>BODY | 1618 | 34060
";

const NOT_WHOLE: &str = "
1618  |            | fault 22
1618  | FIVES: 128 | fault 22
>BODY | 1618       | fault 22
";

// A constant of -1.
const CONSTANT: &str = "
1618  |      | -1
>BODY | 1618 | fault 22
";

#[test]
fn tokens(rt: HostRuntime) {
    tables_hold(
        &rt,
        &[
            (CODES, TOKENS),
            ("CODE: 202 0 12 133", WHOLE),
            ("CODE: 202 0 12", NOT_WHOLE),
            ("CODE: 202 0", NOT_WHOLE),
            ("CODE: 203 0 12 133", NOT_WHOLE),
            ("CODE: 203 0 12 133 255 255", CONSTANT),
        ],
    );
}
