// Raw values: occurrence k of a parameter in a packet, by where its plf row locates it, and its pcf row.
#![tactic(auto)]

pub mod place;

ghost use Rattle.std.specs.Prelude.{◌≡◌, ℤ, Err, ◌+◌, ◌*◌, ◌<◌, ◌≤◌, length};
ghost use Rattle.std.proofs.Math.Option.{some};
ghost use Rattle.rows.specs.declared.records.PlfRow as declared;
ghost use Rattle.fields.specs.Field.{said_error, unsigned_at};
ghost use Rattle.fields.specs.Sign.{signed_at};
ghost use Rattle.string_fields.specs.Text.{said_string, string_at};
ghost use Rattle.outcomes.specs.Refusals.{refused_by};
ghost use Rattle.outcomes.specs.Values as meant;
ghost use Rattle.outcomes.specs.Values.{number};
ghost use Rattle.wire_reals.specs.Reals.{real_value};
ghost use Rattle.raw_values.specs.RawValues.{said_raw, value_at, packet_part, is_string, TypeWidth, field_raw, raw_in, raw_of, location_of};

use crate::place::{FieldStart, Location, start_of};
use fields::field::{FieldError, read_unsigned};
use fields::sign::read_signed;
use outcomes::{Refusal, Value};
use rows::records::PcfRow;
use string_fields::{StringError, string_at};
use units::{BitOffset, ByteOffset};
use widths::width_of;
use wire_reals::{bits_told, real_bits};

// A packet has at most so many bytes.
const PACKET_BYTES: usize = 8192;

fn is_string(ptc: u32) -> bool
    ensures { result ≡ is_string ptc }
{
    if ptc == 7 {
        return true;
    }
    ptc == 8
}

// Why there is no string from the bit `at`, with its byte.
fn string_refusal(error: StringError, at: BitOffset) -> Refusal
    ensures { (make : ℤ → meant.Value) → refused_by result ≡ value_at at.0 make (said_string (Err error)) }
{
    let byte = ByteOffset(at.0 / 8);
    match error {
        StringError::Outside => Refusal::FieldLeaves(byte),
        StringError::OffByte => Refusal::StringOffByte(byte),
        StringError::NoBytes => Refusal::NoPlfRow,
    }
}

fn string_raw(p: &[u8], at: BitOffset, bytes: usize) -> Result<Value, Refusal>
    ensures { said_raw result ≡ value_at at.0 (packet_part at.0 bytes) (string_at p.now at.0 bytes) }
{
    let byte = ByteOffset(at.0 / 8);
    match string_at(p, at, bytes) {
        Ok(from) => Ok(Value::Part(byte, bytes)),
        Err(error) => Err(string_refusal(error, at)),
    }
}

// Why a field from the bit `at` has no number; a field that leaves the packet is told by its byte.
fn field_refusal(error: FieldError, at: BitOffset) -> Refusal
    ensures { (make : ℤ → meant.Value) → refused_by result ≡ value_at at.0 make (said_error error) }
{
    match error {
        FieldError::Outside => Refusal::FieldLeaves(ByteOffset(at.0 / 8)),
        FieldError::NoWidth => Refusal::NoPlfRow,
    }
}

fn signed_raw(p: &[u8], at: BitOffset, width: u32) -> Result<Value, Refusal>
    ensures { said_raw result ≡ value_at at.0 number (signed_at p.now at.0 width) }
{
    match read_signed(p, at, width) {
        Ok(v) => Ok(Value::Number(v)),
        Err(error) => Err(field_refusal(error, at)),
    }
}

// Of at most 32 bits, which an i64 holds.
fn unsigned_raw(p: &[u8], at: BitOffset, width: u32) -> Result<Value, Refusal>
    requires { width ≤ 32 }
    ensures { said_raw result ≡ value_at at.0 number (unsigned_at p.now at.0 width) }
{
    match read_unsigned(p, at, width) {
        Ok(v) => Ok(Value::Number(v as i64)),
        Err(error) => Err(field_refusal(error, at)),
    }
}

// Of at most 64 bits, whatever they are.
fn real_raw(p: &[u8], at: BitOffset, pfc: u32, width: u32) -> Result<Value, Refusal>
    ensures { said_raw result ≡ value_at at.0 (real_value pfc) (unsigned_at p.now at.0 width) }
{
    match read_unsigned(p, at, width) {
        Ok(v) => Ok(Value::Bits(real_bits(pfc, v), bits_told(pfc))),
        Err(error) => Err(field_refusal(error, at)),
    }
}

// A field of `width` bits at a byte that the packet may not have.
fn field_raw(p: &[u8], ptc: u32, pfc: u32, width: u32, start: FieldStart) -> Result<Value, Refusal>
    requires { (length p.now ≤ 8192) × (start.bit < 8) × TypeWidth ptc width }
    ensures { said_raw result ≡ field_raw p.now ptc pfc width (8 * start.byte.0 + start.bit) }
{
    let byte = start.byte.0;
    if p.len() < byte {
        return Err(Refusal::FieldLeaves(ByteOffset(byte)));
    }
    let at = 8 * byte + start.bit;
    if is_string(ptc) {
        return string_raw(p, BitOffset(at), (width / 8) as usize);
    }
    if ptc == 5 {
        return real_raw(p, BitOffset(at), pfc, width);
    }
    if ptc == 4 {
        return signed_raw(p, BitOffset(at), width);
    }
    unsigned_raw(p, BitOffset(at), width)
}

// Occurrence k of a field of `width` bits.
fn occurrence_raw(
    p: &[u8],
    location: Location,
    ptc: u32,
    pfc: u32,
    width: u32,
    k: usize,
) -> Result<Value, Refusal>
    requires { (length p.now ≤ 8192) × TypeWidth ptc width }
    ensures { (plf : declared.PlfRow) → location ≡ location_of plf → said_raw result ≡ raw_in p.now plf ptc pfc k (some width) }
{
    if location.nbocc as usize <= k {
        return Err(Refusal::NoOccurrence);
    }
    field_raw(p, ptc, pfc, width, start_of(location, k))
}

// The raw value of occurrence k by any plf row that locates it here, and its pcf row.
pub fn raw_of(p: &[u8], location: Location, pcf: PcfRow, k: usize) -> Result<Value, Refusal>
    ensures { (plf : declared.PlfRow) → location ≡ location_of plf → said_raw result ≡ raw_of p.now plf pcf k }
{
    if PACKET_BYTES < p.len() {
        return Err(Refusal::PacketLength);
    }
    let Some(width) = width_of(pcf.ptc, pcf.pfc) else {
        return Err(Refusal::NoPlfRow);
    };
    occurrence_raw(p, location, pcf.ptc, pcf.pfc, width, k)
}
