// Strings: whole bytes of a packet.
#![tactic(auto)]

ghost use Rattle.std.specs.Prelude.{◌≡◌};
ghost use Rattle.string_fields.specs.Text.{said_string, string_at, part_at};

use units::{BitOffset, ByteOffset};

// Why no string is read.
#[derive(Clone, Copy, PartialEq, Eq)]
pub enum StringError {
    // A bit of it lies outside the packet.
    Outside,
    // It doesn't start on a byte.
    OffByte,
    // No string has 0 bytes.
    NoBytes,
}

// The byte on which `bytes` bytes from the bit `at` start, where they lie inside and start on one.
pub fn string_at(p: &[u8], at: BitOffset, bytes: usize) -> Result<ByteOffset, StringError>
    ensures { said_string result ≡ string_at p.now at.0 bytes }
{
    if bytes == 0 {
        return Err(StringError::NoBytes);
    }
    let start = at.0;
    let first = start / 8;
    let lead = start % 8;
    if p.len() < first {
        return Err(StringError::Outside);
    }
    if p.len() - first < bytes {
        return Err(StringError::Outside);
    }
    if lead == 0 {
        return Ok(ByteOffset(first));
    }
    if p.len() - first == bytes {
        return Err(StringError::Outside);
    }
    Err(StringError::OffByte)
}

// The part of p that is `bytes` bytes from the byte `from`, as `string_at` found it;
// empty where such a part isn't inside.
#[tactic(auto, using(crate::proofs::TextLaws::part_out, crate::proofs::TextLaws::part_to))]
pub fn string_part(p: &[u8], from: ByteOffset, bytes: usize) -> &[u8]
    ensures { result.now ≡ part_at p.now from.0 bytes }
{
    let a = from.0;
    if p.len() < a {
        return &p[0..0];
    }
    if p.len() - a < bytes {
        return &p[0..0];
    }
    let e = a + bytes;
    &p[a..e]
}
