// Numbers: divided, read from text and written as text. A base stays a cell with a clause: the functions
// take any cell that the clause allows, and a type would be one thing more for callers to make. A cast loses nothing: each value
// is shown to fit.
#![tactic(auto)]

ghost use Rattle.std.specs.Prelude.{◌≡◌, ◌/◌, ◌<◌, ◌≤◌, [], ◌∷◌, length, pos, ◌*ℤ◌, Some};
ghost use Rattle.numbers.specs.Cells.{is_negative, magnitude, negated, signed_value};
ghost use Rattle.numbers.specs.Division.{Divides, answered, cell_of, floored, product, signed};
ghost use Rattle.numbers.specs.Text.{Prints, Reads, digit_byte, digit_of, is_base, magnitude_of, number_in, signed_text, unsigned_text, up_to, value_of};

// Is a cell negative as a signed number?
fn is_negative(cell: u16) -> bool
    ensures { result ≡ is_negative cell }
{
    cell.cast_signed() < 0
}

// The size of a cell's signed number.
fn size(cell: u16) -> u16
    ensures { result ≡ magnitude cell }
{
    cell.cast_signed().unsigned_abs()
}

// The cell of a number of that sign and size.
fn cell_of(below: bool, size: u16) -> u16
    ensures { result ≡ cell_of below size }
{
    if below { size.wrapping_neg() } else { size }
}

// Remainder and quotient, floored, of a number of that sign and size by a signed cell.
#[tactic(auto, using(crate::proofs::Floored::rounded_up_is))]
fn divide_size(below: bool, dividend: u32, divisor: u16) -> Option<(u16, u16)>
    requires { dividend ≤ 1073741824 }
    ensures { result ≡ answered (floored (record { is_below = below; size = dividend }) (signed divisor)) }
{
    let by = u32::from(size(divisor));
    if by == 0 {
        return None;
    }
    let under = is_negative(divisor);
    // `as` loses nothing below; a `try_from` would add branches that no number takes.
    if below == under {
        let quotient = dividend / by;
        if quotient > 32767 {
            return None;
        }
        return Some((cell_of(under, (dividend % by) as u16), quotient as u16));
    }
    // rounded up in size, which is down
    let quotient = dividend.div_ceil(by);
    if quotient > 32768 {
        return None;
    }
    Some((
        cell_of(under, (quotient * by - dividend) as u16),
        cell_of(true, quotient as u16),
    ))
}

// Do two cells differ in sign? Then their product is not above 0.
fn differ_in_sign(a: u16, b: u16) -> bool
    ensures { result ≡ (product a b).is_below }
{
    is_negative(a) != is_negative(b)
}

// Remainder and quotient of signed cells, floored, where the quotient is in a cell.
#[tactic(auto, using(crate::proofs::Floored::cells))]
pub fn divide(a: u16, b: u16) -> Option<(u16, u16)>
    ensures divided { Divides (signed_value a) (signed_value b) result }
    ensures defined { result ≡ answered (floored (signed a) (signed b)) }
{
    divide_size(is_negative(a), u32::from(size(a)), b)
}

// The same of the whole product of a and b, divided by c.
#[tactic(auto, using(crate::proofs::Floored::products, crate::proofs::Floored::magnitude_le))]
pub fn divide_product(a: u16, b: u16, c: u16) -> Option<(u16, u16)>
    ensures divided { Divides (signed_value a *ℤ signed_value b) (signed_value c) result }
    ensures defined { result ≡ answered (floored (product a b) (signed c)) }
{
    let dividend = u32::from(size(a)) * u32::from(size(b));
    divide_size(differ_in_sign(a, b), dividend, c)
}

// Are there digits in this base?
pub fn is_base(base: u16) -> bool
    ensures { result ≡ is_base base }
{
    (2..=36).contains(&base)
}

// The value with one digit more, where it is a digit of the base and the value is in a cell.
fn with_digit(base: u16, value: u16, byte: u8) -> Option<u16>
    requires { (2 ≤ base) × (base ≤ 36) }
    ensures { result ≡ up_to 65535 (λ n. n) (value_of base value (byte ∷ [])) }
{
    let digit = char::from(byte).to_digit(u32::from(base))?;
    // In 32 bits: two checked steps in 16 take twice the time.
    u16::try_from(u32::from(value) * u32::from(base) + digit).ok()
}

// The value of one or more digits, where it is in a cell.
#[tactic(auto, using(crate::proofs::Reading::more, crate::proofs::Reading::stops, crate::proofs::Reading::ends))]
fn read_digits(base: u16, text: &[u8]) -> Option<u16>
    requires { (2 ≤ base) × (base ≤ 36) }
    ensures { result ≡ up_to 65535 (λ n. n) (magnitude_of base text.now) }
{
    if text.is_empty() {
        return None;
    }
    let mut value = 0;
    for &byte in text {
        value = with_digit(base, value, byte)?;
    }
    Some(value)
}

// The cell of the negative number of that size.
fn negative(size: Option<u16>) -> Option<u16>
    ensures { result ≡ up_to 32768 negated size }
{
    size.filter(|&size| size <= 32768).map(u16::wrapping_neg)
}

// The cell of a number: an optional minus, then one or more digits of the base.
pub fn read_number(base: u16, text: &[u8]) -> Option<u16>
    ensures reads { Reads base text.now result }
    ensures defined { result ≡ number_in base text.now }
{
    if !is_base(base) {
        return None;
    }
    match text {
        [b'-', digits @ ..] => negative(read_digits(base, digits)),
        _ => read_digits(base, text),
    }
}

// The byte that writes a digit; the library's `from_digit` gives small letters.
fn digit_byte(digit: u16) -> u8
    requires { digit < 36 }
    ensures { result ≡ digit_byte digit }
{
    if digit < 10 {
        b'0' + digit as u8
    } else {
        b'A' + (digit - 10) as u8
    }
}

// How many bytes a cell takes as an unsigned number. Each round takes a digit off, as the definition does: no index is counted.
#[tactic(auto, using(crate::proofs::Printing::width_one, crate::proofs::Printing::width_more, crate::proofs::Printing::width_is, crate::proofs::Printing::width_short, crate::proofs::Printing::front_falls))]
pub fn unsigned_width(base: u16, value: u16) -> usize
    requires { (2 ≤ base) × (base ≤ 36) }
    ensures exact { result ≡ length (unsigned_text base value) }
    ensures bounded { result ≤ 16 }
{
    let mut width = 1;
    let mut rest = value;
    while rest >= base {
        rest /= base;
        width += 1;
    }
    width
}

// Writes a cell as an unsigned number into just its place, the last digit last.
#[tactic(auto, using(crate::proofs::Printing::written_none, crate::proofs::Printing::written_more))]
pub fn write_unsigned(base: u16, value: u16, out: &mut [u8])
    requires { (2 ≤ base) × ((base ≤ 36) × (length out.old ≡ length (unsigned_text base value))) }
    ensures prints { Prints base out.new (pos value) }
    ensures reads_back { number_in base out.new ≡ Some value }
    ensures defined { out.new ≡ unsigned_text base value }
{
    let mut left = value;
    // By place: of what `iter_mut().rev()` writes the check knows no byte.
    for place in (0..out.len()).rev() {
        out[place] = digit_byte(left % base);
        left /= base;
    }
}

// How many bytes a cell takes as a signed number.
pub fn signed_width(base: u16, value: u16) -> usize
    requires { (2 ≤ base) × (base ≤ 36) }
    ensures exact { result ≡ length (signed_text base value) }
    ensures bounded { result ≤ 17 }
{
    if is_negative(value) {
        1 + unsigned_width(base, size(value))
    } else {
        unsigned_width(base, value)
    }
}

// Writes a cell as a signed number into just its place.
#[tactic(auto, using(crate::proofs::Printing::minus_text, crate::proofs::Printing::signed_prints, crate::proofs::Printing::signed_back))]
pub fn write_signed(base: u16, value: u16, out: &mut [u8])
    requires { (2 ≤ base) × ((base ≤ 36) × (length out.old ≡ length (signed_text base value))) }
    ensures prints { Prints base out.new (signed_value value) }
    ensures reads_back { number_in base out.new ≡ Some value }
    ensures defined { out.new ≡ signed_text base value }
{
    if is_negative(value) {
        out[0] = b'-';
        write_unsigned(base, size(value), &mut out[1..]);
    } else {
        write_unsigned(base, value, out);
    }
}
