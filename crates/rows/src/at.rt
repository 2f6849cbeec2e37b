// What column k, from 0, of a line says, by where its columns end.
ghost use Rattle.std.specs.Prelude.{◌≡◌};
ghost use Rattle.lines.specs.Columns.{column_in};
ghost use Rattle.name_bytes.specs.Names.{name_of, curve_name_of};
ghost use Rattle.rows.specs.Values.{natural_or, integer_or, coefficient_or_zero, letter_of, optional_name, optional_curve, optional_apid, identification_at};

use crate::records::{IdentificationField, OptionalCurve, OptionalName};
use crate::values::{coefficient_or_zero, identification, integer_or, is_given, natural_or};
use lines::columns::column;
use name_bytes::{CurveName, Name, curve_name_of, name_of};

pub fn name_at(line: &[u8], ends: &[usize], k: usize) -> Name
    ensures { result ≡ name_of (column_in line.now ends.now k) }
{
    name_of(column(line, ends, k))
}

pub fn curve_at(line: &[u8], ends: &[usize], k: usize) -> CurveName
    ensures { result ≡ curve_name_of (column_in line.now ends.now k) }
{
    curve_name_of(column(line, ends, k))
}

pub fn natural_at(line: &[u8], ends: &[usize], k: usize, default: u32) -> u32
    ensures { result ≡ natural_or default (column_in line.now ends.now k) }
{
    natural_or(column(line, ends, k), default)
}

pub fn integer_at(line: &[u8], ends: &[usize], k: usize, default: i64) -> i64
    ensures { result ≡ integer_or default (column_in line.now ends.now k) }
{
    integer_or(column(line, ends, k), default)
}

pub fn coefficient_at(line: &[u8], ends: &[usize], k: usize) -> f64
    ensures { result ≡ coefficient_or_zero (column_in line.now ends.now k) }
{
    coefficient_or_zero(column(line, ends, k))
}

pub fn letter_at(line: &[u8], ends: &[usize], k: usize) -> u8
    ensures { result ≡ letter_of (column_in line.now ends.now k) }
{
    let text = column(line, ends, k);
    if text.len() == 0 {
        return 0;
    }
    text[0]
}

pub fn optional_name_at(line: &[u8], ends: &[usize], k: usize) -> OptionalName
    ensures { result ≡ optional_name (column_in line.now ends.now k) }
{
    let text = column(line, ends, k);
    OptionalName {
        given: is_given(text),
        name: name_of(text),
    }
}

pub fn optional_curve_at(line: &[u8], ends: &[usize], k: usize) -> OptionalCurve
    ensures { result ≡ optional_curve (column_in line.now ends.now k) }
{
    let text = column(line, ends, k);
    OptionalCurve {
        given: is_given(text),
        name: curve_name_of(text),
    }
}

pub fn optional_apid_at(line: &[u8], ends: &[usize], k: usize) -> Option<u32>
    ensures { result ≡ optional_apid (column_in line.now ends.now k) }
{
    let text = column(line, ends, k);
    if is_given(text) {
        return Some(natural_or(text, 0));
    }
    None
}

// An offset, and its width in another column.
pub fn identification_at(line: &[u8], ends: &[usize], k: usize, w: usize) -> IdentificationField
    ensures { result ≡ identification_at (column_in line.now ends.now k) (column_in line.now ends.now w) }
{
    identification(integer_at(line, ends, k, 0), natural_at(line, ends, w, 0))
}
