// The bytes that a part of a line stands for: a text with escapes, or hexadecimal digits.
#![tactic(auto)]

ghost use Rattle.std.specs.Prelude.{◌≡◌, [], ◌∷◌, ◌++◌, ◌≤◌, ◌<◌, length, take};
ghost use Rattle.std.proofs.Math.Option.{some};
ghost use Rattle.numbers.specs.Number.{digit_of};
ghost use Rattle.escapes.specs.Escapes.{byte_of, byte_at, unescaped, hex_bytes, row_bytes, is_open, ended_row, where_room, read_in, NoMoreThan};
ghost use Rattle.escapes.specs.Escapes.{plain as plain_of};

use lines::columns::part;

// A byte more than a table may have, so that one that is too long can be asked about.
pub const ROOM: usize = 65537;

// The value of a hexadecimal digit, either case; 16 where the character is none.
fn digit(c: u8) -> u8
    ensures { result ≡ digit_of c }
{
    match c {
        b'0'..=b'9' => c - b'0',
        b'A'..=b'F' => c - b'A' + 10,
        b'a'..=b'f' => c - b'a' + 10,
        _ => 16,
    }
}

// A byte by its two digits, or 256.
pub fn byte_of(high: u8, low: u8) -> usize
    ensures { (result ≡ byte_of high low) × (result ≤ 256) }
{
    let h = digit(high);
    let l = digit(low);
    if 15 < h {
        return 256;
    }
    if 15 < l {
        return 256;
    }
    h as usize * 16 + l as usize
}

// `|` stands for a TAB, and any other character but `\` for itself.
fn plain(c: u8) -> u8
    ensures { result ≡ plain_of c }
{
    if c == b'|' { 9 } else { c }
}

// The byte that the two characters at a place are the digits of, or 256; also where the line has none.
fn byte_at(raw: &[u8], i: usize) -> usize
    ensures { (result ≡ byte_at raw.now i) × (result ≤ 256) }
{
    if raw.len() <= i {
        return 256;
    }
    if raw.len() <= i + 1 {
        return 256;
    }
    byte_of(raw[i], raw[i + 1])
}

// A text: `\` and two digits are any byte. How many bytes it is, or none where it can't be read.
pub fn unescape(raw: &[u8], out: &mut [u8]) -> Option<usize>
    ensures out_after { read_in result out.new ≡ where_room (length out.old) raw.now (unescaped raw.now) }
    ensures no_more_than { NoMoreThan result (length raw.now) }
{
    if out.len() < raw.len() {
        return None;
    }
    let mut i: usize = 0;
    let mut n: usize = 0;
    while i < raw.len() {
        let c = raw[i];
        i += 1;
        if c == b'\\' {
            let byte = byte_at(raw, i);
            if 255 < byte {
                return None;
            }
            out[n] = byte as u8;
            n += 1;
            i += 2;
        } else {
            out[n] = plain(c);
            n += 1;
        }
    }
    Some(n)
}

// Bytes of two digits each. A space may stand between two of them.
pub fn read_hex(raw: &[u8], out: &mut [u8]) -> Option<usize>
    ensures { read_in result out.new ≡ where_room (length out.old) raw.now (hex_bytes raw.now) }
{
    if out.len() < raw.len() {
        return None;
    }
    let mut i: usize = 0;
    let mut n: usize = 0;
    while i < raw.len() {
        if raw[i] == b' ' {
            i += 1;
        } else {
            let byte = byte_at(raw, i);
            if 255 < byte {
                return None;
            }
            out[n] = byte as u8;
            n += 1;
            i += 2;
        }
    }
    Some(n)
}

// Whether a `\` stands at the very end.
fn is_open(raw: &[u8]) -> bool
    ensures { result ≡ is_open raw.now }
{
    if raw.len() == 0 {
        return false;
    }
    raw[raw.len() - 1] == b'\\'
}

// A line feed after the first n bytes.
fn end_row(out: &mut [u8], n: usize) -> Option<usize>
    requires { n < length out.old }
    ensures { read_in result out.new ≡ ended_row (some (take n out.old)) }
{
    out[n] = 10;
    Some(n + 1)
}

// A row: a line feed ends it, unless a `\` at the very end leaves it out.
pub fn unescape_row(raw: &[u8], out: &mut [u8]) -> Option<usize>
    ensures { read_in result out.new ≡ where_room (length out.old) (raw.now ++ 10 ∷ []) (row_bytes raw.now) }
{
    if out.len() <= raw.len() {
        return None;
    }
    if is_open(raw) {
        return unescape(part(raw, 0, raw.len() - 1), out);
    }
    let n = unescape(raw, out)?;
    end_row(out, n)
}
