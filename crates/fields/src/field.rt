// A field read as an unsigned number.
ghost use Rattle.std.specs.Prelude.{◌≡◌};
ghost use Rattle.fields.specs.Field.{said_unsigned, unsigned_at};

use crate::bits::gather;
use units::BitOffset;

// Why no number is read.
#[derive(Clone, Copy, PartialEq, Eq)]
pub enum FieldError {
    // A bit of the field lies outside the packet.
    Outside,
    // No field has this width: 0, or over 64.
    NoWidth,
}

// The `width` bits from the bit `at`, most significant first.
pub fn read_unsigned(p: &[u8], at: BitOffset, width: u32) -> Result<u64, FieldError>
    ensures { said_unsigned result ≡ unsigned_at p.now at.0 width }
{
    if width == 0 {
        return Err(FieldError::NoWidth);
    }
    if 64 < width {
        return Err(FieldError::NoWidth);
    }
    let start = at.0;
    let first = start / 8;
    let lead = start % 8;
    let w = width as usize;
    if p.len() < first {
        return Err(FieldError::Outside);
    }
    if p.len() - first < (lead + w + 7) / 8 {
        return Err(FieldError::Outside);
    }
    Ok(gather(p, first, lead, w))
}
