// The text of a number and its value.
#![tactic(auto)]

ghost use Rattle.std.specs.Prelude.{◌≤◌, ◌≡◌};
ghost use Rattle.numbers.specs.Number.{minus, leading_zero, hex_mark, digits, digit_of, spelt, meaning, number_of, answer_of};

// Why a text has no value: it is no number, or one too large for any column (2 ^ 60 or more in magnitude).
#[derive(Clone, Copy, PartialEq, Eq)]
pub enum NumberError {
    NotNumber,
    Beyond,
}

// A magnitude is told exactly below this.
const LIMIT: u64 = 1 << 60;

// The value of a digit, either case; 16 where the character is none.
pub fn digit(c: u8) -> u64
    ensures { result ≡ digit_of c }
{
    match c {
        b'0'..=b'9' => (c - b'0') as u64,
        b'A'..=b'F' => (c - b'A' + 10) as u64,
        b'a'..=b'f' => (c - b'a' + 10) as u64,
        _ => 16,
    }
}

// The number of a magnitude and a sign.
fn signed(magnitude: u64, negative: bool) -> Result<i64, NumberError>
    ensures { result ≡ answer_of (meaning (digits 10 negative magnitude)) }
{
    if LIMIT <= magnitude {
        return Err(NumberError::Beyond);
    }
    if negative {
        return Ok(-(magnitude as i64));
    }
    Ok(magnitude as i64)
}

// Digits of `base` to the end of the text. From LIMIT on the magnitude stays, so it never wraps, and the characters are
// still tested.
fn read_digits(text: &[u8], base: u64, negative: bool) -> Result<i64, NumberError>
    requires { base ≤ 16 }
    ensures { result ≡ answer_of (meaning (spelt (digits base negative 0) text.now)) }
{
    let mut magnitude: u64 = 0;
    let mut i: usize = 0;
    while i < text.len() {
        let d = digit(text[i]);
        if base <= d {
            return Err(NumberError::NotNumber);
        }
        i += 1;
        if magnitude < LIMIT {
            magnitude = magnitude * base + d;
        }
    }
    signed(magnitude, negative)
}

// What follows 0x or 0X.
fn after_hex_mark(text: &[u8]) -> Result<i64, NumberError>
    ensures { result ≡ answer_of (meaning (spelt hex_mark text.now)) }
{
    if text.len() == 0 {
        return Err(NumberError::NotNumber);
    }
    read_digits(text, 16, false)
}

// What follows a leading 0.
fn after_zero(text: &[u8]) -> Result<i64, NumberError>
    ensures { result ≡ answer_of (meaning (spelt leading_zero text.now)) }
{
    if text.len() == 0 {
        return Ok(0);
    }
    let c = text[0];
    match c {
        b'x' | b'X' => after_hex_mark(&text[1..]),
        _ => read_digits(text, 8, false),
    }
}

// What follows a minus: 0 alone, or a decimal that starts with 1 to 9.
fn after_minus(text: &[u8]) -> Result<i64, NumberError>
    ensures { result ≡ answer_of (meaning (spelt minus text.now)) }
{
    if text.len() == 0 {
        return Err(NumberError::NotNumber);
    }
    if text[0] == b'0' {
        if text.len() == 1 {
            return Ok(0);
        }
        return Err(NumberError::NotNumber);
    }
    read_digits(text, 10, true)
}

// What a text of any length is, in one walk over it.
pub fn read_number(text: &[u8]) -> Result<i64, NumberError>
    ensures { result ≡ answer_of (number_of text.now) }
{
    if text.len() == 0 {
        return Err(NumberError::NotNumber);
    }
    let c = text[0];
    match c {
        b'-' => after_minus(&text[1..]),
        b'0' => after_zero(&text[1..]),
        _ => read_digits(text, 10, false),
    }
}
