// What a text says: a number after its default, whether it was given at all, and a field by its offset and width.
ghost use Rattle.std.specs.Prelude.{◌≡◌};
ghost use Rattle.rows.specs.Values.{natural_or, integer_or, coefficient_or_zero, is_given, identification_field};

use crate::records::IdentificationField;
use coefficients::{Coefficient, read_coefficient};
use numbers::read_number;
use units::ByteOffset;

pub fn natural_or(text: &[u8], default: u32) -> u32
    ensures { result ≡ natural_or default text.now }
{
    let Ok(v) = read_number(text) else {
        return default;
    };
    if v < 0 {
        return default;
    }
    if v < 0x1_0000_0000 {
        return v as u32;
    }
    default
}

pub(crate) fn integer_or(text: &[u8], default: i64) -> i64
    ensures { result ≡ integer_or default text.now }
{
    read_number(text).unwrap_or(default)
}

pub(crate) fn coefficient_or_zero(text: &[u8]) -> f64
    ensures { result ≡ coefficient_or_zero text.now }
{
    match read_coefficient(text) {
        Coefficient::Double(x) => x,
        Coefficient::NotCoefficient => 0.0,
        Coefficient::PowerOutOfRange => 0.0,
        Coefficient::TooWide => 0.0,
    }
}

pub(crate) fn is_given(text: &[u8]) -> bool
    ensures { result ≡ is_given text.now }
{
    if text.len() == 0 {
        return false;
    }
    true
}

// An identification field by its offset, which is negative where it is unused, and its width.
pub(crate) fn identification(offset: i64, width: u32) -> IdentificationField
    ensures { result ≡ identification_field offset width }
{
    if offset < 0 {
        return IdentificationField::Unused;
    }
    let byte = offset as usize;
    IdentificationField::At(ByteOffset(byte), width)
}
