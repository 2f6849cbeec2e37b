// Where a text goes wrong as a number.
#![tactic(auto)]

ghost use Rattle.std.specs.Prelude.{◌≤◌, ◌≡◌, false, length};
ghost use Rattle.laws.specs.Walks.{lead_on};
ghost use Rattle.numbers.specs.Number.{minus, leading_zero, digits};
ghost use Rattle.number_positions.specs.Positions.{number_walk, wrong_in_number, no_digits};

use numbers::digit;

// How many characters are digits of a base, up to the first that is none.
fn digits_long(text: &[u8], base: u64) -> usize
    ensures { (result ≡ lead_on number_walk (digits base false 0) text.now) × (result ≤ length text.now) }
{
    let mut i: usize = 0;
    while i < text.len() {
        if base <= digit(text[i]) {
            return i;
        }
        i += 1;
    }
    i
}

// How many characters lead on after a minus: 0 alone, or a decimal that starts with 1 to 9.
fn minus_long(text: &[u8]) -> usize
    ensures { (result ≡ lead_on number_walk minus text.now) × (result ≤ length text.now) }
{
    if text.len() == 0 {
        return 0;
    }
    if text[0] == b'0' {
        return 1;
    }
    digits_long(text, 10)
}

// And after a leading 0.
fn zero_long(text: &[u8]) -> usize
    ensures { (result ≡ lead_on number_walk leading_zero text.now) × (result ≤ length text.now) }
{
    if text.len() == 0 {
        return 0;
    }
    let c = text[0];
    match c {
        b'x' | b'X' => 1 + digits_long(&text[1..], 16),
        _ => digits_long(text, 8),
    }
}

// The first character, from 1, at which no number can go on, or one past the end.
pub fn wrong_in_number(text: &[u8]) -> usize
    ensures { result ≡ wrong_in_number text.now }
{
    if text.len() == 0 {
        return 1;
    }
    let c = text[0];
    match c {
        b'-' => 2 + minus_long(&text[1..]),
        b'0' => 2 + zero_long(&text[1..]),
        _ => 1 + digits_long(text, 10),
    }
}

// Whether a text is a minus or a mark of hexadecimals alone.
pub fn no_digits(text: &[u8]) -> bool
    ensures { result ≡ no_digits text.now }
{
    if text.len() == 1 {
        return text[0] == b'-';
    }
    if text.len() == 2 {
        if text[0] == b'0' {
            let mark = text[1];
            return match mark {
                b'x' | b'X' => true,
                _ => false,
            };
        }
        return false;
    }
    false
}
