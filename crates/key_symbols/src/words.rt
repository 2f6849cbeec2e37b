// Parts of keys as machine words, and names as symbols.
ghost use Rattle.std.specs.Prelude.{◌≡◌, true, ◌-◌, ◌≤◌, ◌<◌, ◌^◌, length, take, drop};
ghost use Rattle.key_symbols.specs.Keyed.{digits_number, name_symbol, curve_symbol, value_symbol, halves, integer_word, apid_word};
ghost use Rattle.key_symbols.specs.Bounded.{bytes_fit};

use name_bytes::{CurveName, Name};
use symbols::Symbol;

fn wide(b: u8) -> u64
    ensures { result ≡ b }
{
    b as u64
}

// Up to eight bytes as one number, the first byte the highest.
fn bytes_word(bytes: &[u8]) -> u64
    requires { length bytes.now ≤ 8 }
    ensures { (result ≡ digits_number 256 bytes.now) × (result < 256 ^ length bytes.now) }
{
    let mut n: u64 = 0;
    for i in 0..bytes.len() {
        n = n * 256 + wide(bytes[i]);
    }
    n
}

// The bytes from `from` to before `end`, at most eight, as one number.
fn part_word(bytes: &[u8], from: usize, end: usize) -> u64
    requires { (from ≤ end) × (end ≤ length bytes.now) × (end - from ≤ 8) }
    ensures { (result ≡ digits_number 256 (take (end - from) (drop from bytes.now))) × (result < 256 ^ (end - from)) }
{
    bytes_word(&bytes[from..end])
}

// A name of eight bytes, and a number beside it.
pub(crate) fn name_symbol(space: u64, name: Name, c: u64) -> Symbol
    ensures { (result ≡ name_symbol space name c) × (bytes_fit 8 name.bytes ≡ true) }
{
    let bytes = name.bytes;
    Symbol {
        space,
        a: bytes_word(&bytes),
        b: name.len as u64,
        c,
    }
}

// A name of ten bytes.
pub(crate) fn curve_symbol(space: u64, name: CurveName) -> Symbol
    ensures { (result ≡ curve_symbol space name) × (bytes_fit 10 name.bytes ≡ true) × (result.c < 65536) }
{
    let bytes = name.bytes;
    Symbol {
        space,
        a: part_word(&bytes, 0, 8),
        b: name.len as u64,
        c: part_word(&bytes, 8, 10),
    }
}

// A name of ten bytes, and an integer beside it.
pub(crate) fn value_symbol(space: u64, name: CurveName, x: i64) -> Symbol
    ensures { result ≡ value_symbol space name x }
{
    let whole = curve_symbol(space, name);
    Symbol {
        space,
        a: whole.a,
        b: whole.b % 0x1_0000_0000_0000 * 65536 + whole.c,
        c: integer_word(x),
    }
}

pub(crate) fn two_halves(high: u32, low: u32) -> u64
    ensures { result ≡ halves high low }
{
    (high as u64) * 0x1_0000_0000 + (low as u64)
}

// An integer: even from 0 on, odd below it.
fn integer_word(x: i64) -> u64
    ensures { result ≡ integer_word x }
{
    if x < 0 {
        return ((-1 - x) as u64) * 2 + 1;
    }
    (x as u64) * 2
}

pub(crate) fn apid_word(apid: Option<u32>) -> u64
    ensures { result ≡ apid_word apid }
{
    match apid {
        Some(n) => (n as u64) + 1,
        None => 0,
    }
}
