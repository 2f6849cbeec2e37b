// Two's complement, of a number and of a field.
ghost use Rattle.std.specs.Prelude.{◌≡◌, ℕ, ◌^◌, ◌<◌, ◌≤◌, negsuc};
ghost use Rattle.fields.specs.Sign.{complement_of, said_complement, complement_at, said_signed, signed_at};

use crate::field::{FieldError, read_unsigned};
use units::BitOffset;

// -(n + 1)
fn below_zero(n: u64) -> i64
    requires { n < 2 ^ 63 }
    ensures { result ≡ negsuc n }
{
    -1 - (n as i64)
}

fn as_signed(v: u64, width: u32) -> i64
    requires { (1 ≤ width) × (width ≤ 64) × (v < 2 ^ width) }
    ensures { result ≡ complement_of width v }
{
    let half = 1u64 << (width - 1);
    if v < half {
        v as i64
    } else {
        below_zero(half - 1 - (v - half))
    }
}

// The integer that the `width` bits of v are in two's complement; None where no field holds v:
// its width is 0 or over 64, or v is wider.
pub fn twos_complement(v: u64, width: u32) -> Option<i64>
    ensures { said_complement result ≡ complement_at width v }
{
    if width == 0 {
        return None;
    }
    if 64 < width {
        return None;
    }
    if 1 < v >> (width - 1) {
        return None;
    }
    Some(as_signed(v, width))
}

// The `width` bits from the bit `at`, most significant first, in two's complement.
pub fn read_signed(p: &[u8], at: BitOffset, width: u32) -> Result<i64, FieldError>
    ensures { said_signed result ≡ signed_at p.now at.0 width }
{
    let v = read_unsigned(p, at, width)?;
    Ok(as_signed(v, width))
}
