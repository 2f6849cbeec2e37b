// PI1 and PI2 of a packet, by a pic row.
#![tactic(auto)]

ghost use Rattle.std.specs.Prelude.{◌≡◌, ◌*◌, drop};
ghost use Rattle.fields.specs.Field.{unsigned_at};
ghost use Rattle.outcomes.specs.Refusals.{said};
ghost use Rattle.identifiers.specs.Identifiers.{read_identifier, identifier_at, identifiers_by};

use fields::field::{FieldError, read_unsigned};
use outcomes::Refusal;
use rows::records::{IdentificationField, PicRow};
use units::{BitOffset, ByteOffset};

// PI1 and PI2.
#[derive(Clone, Copy)]
pub struct Identifiers {
    pub pi1: u64,
    pub pi2: u64,
}

// The bytes from `at` on; none past the end.
fn bytes_from(p: &[u8], at: usize) -> &[u8]
    ensures { result.now ≡ drop at p.now }
{
    if p.len() <= at {
        return &p[..0];
    }
    &p[at..]
}

// The field is read from the first bit of its first byte: a place in bits can pass a word.
fn field_at(p: &[u8], byte: ByteOffset, width: u32) -> Result<u64, Refusal>
    ensures { said result ≡ read_identifier byte.0 (unsigned_at p.now (byte.0 * 8) width) }
{
    match read_unsigned(bytes_from(p, byte.0), BitOffset(0), width) {
        Ok(v) => Ok(v),
        Err(FieldError::Outside) => Err(Refusal::IdentificationLeaves(byte)),
        Err(FieldError::NoWidth) => Ok(0),
    }
}

// An unused field is 0.
fn read_field(p: &[u8], field: IdentificationField) -> Result<u64, Refusal>
    ensures { said result ≡ identifier_at p.now field }
{
    match field {
        IdentificationField::Unused => Ok(0),
        IdentificationField::At(byte, width) => field_at(p, byte, width),
    }
}

// PI1 first: where both leave the packet, its byte is told.
pub fn read_fields(p: &[u8], row: PicRow) -> Result<Identifiers, Refusal>
    ensures { said result ≡ identifiers_by p.now row }
{
    let pi1 = read_field(p, row.pi1)?;
    let pi2 = read_field(p, row.pi2)?;
    Ok(Identifiers { pi1, pi2 })
}
