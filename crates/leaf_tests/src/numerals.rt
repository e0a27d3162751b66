// Tables of numbers divided, read and printed.
use numbers::{
    divide, divide_product, is_base, read_number, signed_width, unsigned_width, write_signed,
    write_unsigned,
};
use std::process::Abort;

// dividend, divisor, and the remainder and quotient
static QUOTIENTS: [(u16, u16, Option<(u16, u16)>); 13] = [
    (7, 2, Some((1, 3))),
    (65529, 2, Some((1, 65532))),
    (7, 65534, Some((65535, 65532))),
    (65529, 65534, Some((65535, 3))),
    (65528, 2, Some((0, 65532))),
    (6, 65533, Some((0, 65534))),
    (0, 65535, Some((0, 0))),
    (32768, 1, Some((0, 32768))),
    (32768, 32768, Some((0, 1))),
    (32767, 32768, Some((65535, 65535))),
    (1, 32767, Some((1, 0))),
    (32768, 65535, None),
    (5, 0, None),
];

// two factors, divisor, and the remainder and quotient
static SCALED: [(u16, u16, u16, Option<(u16, u16)>); 4] = [
    (32768, 32768, 32767, None),
    (32768, 32768, 32768, Some((0, 32768))),
    (300, 65236, 7, Some((6, 52678))),
    (3, 4, 0, None),
];

// base, text, and the cell that is read
static READINGS: [(u16, &[u8], Option<u16>); 27] = [
    (10, b"0", Some(0)),
    (10, b"007", Some(7)),
    (10, b"65535", Some(65535)),
    (10, b"-32768", Some(32768)),
    (10, b"-1", Some(65535)),
    (10, b"-0", Some(0)),
    (2, b"1111111111111111", Some(65535)),
    (16, b"ff", Some(255)),
    (16, b"-Ff", Some(65281)),
    (36, b"1eKf", Some(65535)),
    (36, b"zz", Some(1295)),
    (10, b"", None),
    (10, b"-", None),
    (10, b"--1", None),
    (10, b"+1", None),
    (10, b"1 ", None),
    (10, b"1A", None),
    (10, b"65536", None),
    (10, b"-32769", None),
    (10, b"99999999999999999999", None),
    (2, b"2", None),
    (16, b"G", None),
    (36, b"1EKG", None),
    (0, b"0", None),
    (1, b"0", None),
    (37, b"0", None),
    (65535, b"0", None),
];

// base, cell, and its texts, signed and unsigned
static PRINTINGS: [(u16, u16, &[u8], &[u8]); 7] = [
    (10, 0, b"0", b"0"),
    (10, 32767, b"32767", b"32767"),
    (10, 32768, b"-32768", b"32768"),
    (10, 65535, b"-1", b"65535"),
    (2, 32768, b"-1000000000000000", b"1000000000000000"),
    (16, 48879, b"-4111", b"BEEF"),
    (36, 1295, b"ZZ", b"ZZ"),
];

#[test]
fn divides(rt: HostRuntime) {
    for &(a, b, answer) in &QUOTIENTS {
        assert!(rt; divide(a, b) == answer, "{a} by {b}");
    }
    for &(a, b, c, answer) in &SCALED {
        assert!(rt; divide_product(a, b, c) == answer, "{a} times {b} by {c}");
    }
}

// One function for both would take the two calls as closures, with their clauses written out: no plainer.
fn prints_signed(rt: &impl Abort, base: u16, value: u16, text: &[u8]) {
    assert!(rt; is_base(base));
    let mut bytes = [0; 17];
    let out = &mut bytes[..signed_width(base, value)];
    write_signed(base, value, out);
    assert!(rt; *out == *text);
}

fn prints_unsigned(rt: &impl Abort, base: u16, value: u16, text: &[u8]) {
    assert!(rt; is_base(base));
    let mut bytes = [0; 16];
    let out = &mut bytes[..unsigned_width(base, value)];
    write_unsigned(base, value, out);
    assert!(rt; *out == *text);
}

#[test]
fn reads(rt: HostRuntime) {
    for (i, (base, text, answer)) in READINGS.iter().enumerate() {
        assert!(rt; read_number(*base, text) == *answer, "reading {i}");
    }
}

#[test]
fn prints(rt: HostRuntime) {
    for &(base, value, signed, unsigned) in &PRINTINGS {
        prints_signed(&rt, base, value, signed);
        prints_unsigned(&rt, base, value, unsigned);
    }
}
