// The questions of what can be seen only inside: a number's text, a field's width, a field of the packet,
// a line through two points.
ghost use Rattle.std.specs.Prelude.{◌≡◌, ◌≤◌};
ghost use Rattle.numbers.specs.Number.{number_of, answer_of};
ghost use Rattle.fields.specs.Field.{said_error, said_unsigned};
ghost use Rattle.fields.specs.Sign.{said_signed};
ghost use Rattle.string_fields.specs.Text.{said_string};
ghost use Rattle.curves.specs.Line.{said_on_line};
ghost use Rattle.widths.specs.Width.{bits_of};
ghost use Rattle.inside.specs.Inside.{number_answer, width_answer, field_answer, string_answer, line_answer};
ghost use Rattle.inside.specs.Inside.{PairWithin, pair_in, width_reply, unsigned_reply, signed_reply, string_reply, line_reply};

use answers::answer::{Answer, one, say_integer, say_words, says, two, unread};
use curves::line::{LineError, Point, on_line};
use fields::field::{FieldError, read_unsigned};
use fields::sign::read_signed;
use numbers::{NumberError, read_number};
use scripts::operands::{column_count, integer_at, natural_at};
use string_fields::{StringError, string_at};
use units::{BitOffset, ByteOffset};
use widths::width_of;

pub fn ask_number(text: &[u8]) -> Answer
    ensures { result ≡ number_answer (answer_of (number_of text.now)) }
{
    match read_number(text) {
        Ok(v) => say_integer(v),
        Err(NumberError::NotNumber) => say_words(b"no number"),
        Err(NumberError::Beyond) => say_words(b"beyond"),
    }
}

fn say_width(width: Option<u32>) -> Answer
    ensures { result ≡ width_answer (bits_of width) }
{
    match width {
        Some(bits) => says(b"# bits", false, one(bits as u64)),
        None => say_words(b"none"),
    }
}

// Two numbers that a question names.
#[derive(Clone, Copy)]
struct Pair {
    first: u64,
    second: u64,
}

// Each is at most so much.
fn pair_of(text: &[u8], m: u64, n: u64) -> Option<Pair>
    ensures { (result ≡ pair_in m n text.now) × PairWithin m n result }
{
    if column_count(text) != 2 {
        return None;
    }
    let first = natural_at(m, text, 0)?;
    let second = natural_at(n, text, 1)?;
    Some(Pair { first, second })
}

pub fn ask_width(text: &[u8]) -> Answer
    ensures { result ≡ width_reply text.now }
{
    let Some(codes) = pair_of(text, 4294967295, 4294967295) else {
        return unread();
    };
    say_width(width_of(codes.first as u32, codes.second as u32))
}

fn say_error(error: FieldError) -> Answer
    ensures { result ≡ field_answer (said_error error) }
{
    match error {
        FieldError::Outside => say_words(b"outside"),
        FieldError::NoWidth => say_words(b"no width"),
    }
}

fn say_unsigned(read: Result<u64, FieldError>) -> Answer
    ensures { result ≡ field_answer (said_unsigned read) }
{
    match read {
        Ok(v) => says(b"#", false, one(v)),
        Err(error) => say_error(error),
    }
}

pub fn ask_unsigned(packet: &[u8], text: &[u8]) -> Answer
    ensures { result ≡ unsigned_reply packet.now text.now }
{
    let Some(field) = pair_of(text, 18446744073709551615, 4294967295) else {
        return unread();
    };
    say_unsigned(read_unsigned(packet, BitOffset(field.first as usize), field.second as u32))
}

fn say_signed(read: Result<i64, FieldError>) -> Answer
    ensures { result ≡ field_answer (said_signed read) }
{
    match read {
        Ok(v) => say_integer(v),
        Err(error) => say_error(error),
    }
}

pub fn ask_signed(packet: &[u8], text: &[u8]) -> Answer
    ensures { result ≡ signed_reply packet.now text.now }
{
    let Some(field) = pair_of(text, 18446744073709551615, 4294967295) else {
        return unread();
    };
    say_signed(read_signed(packet, BitOffset(field.first as usize), field.second as u32))
}

fn say_string(found: Result<ByteOffset, StringError>, bytes: u64) -> Answer
    ensures { result ≡ string_answer bytes (said_string found) }
{
    match found {
        Ok(from) => says(b"string from #, # bytes", false, two(from.0 as u64, bytes)),
        Err(error) => match error {
            StringError::Outside => say_words(b"outside"),
            StringError::OffByte => say_words(b"off a byte"),
            StringError::NoBytes => say_words(b"no bytes"),
        },
    }
}

pub fn ask_string(packet: &[u8], text: &[u8]) -> Answer
    ensures { result ≡ string_reply packet.now text.now }
{
    let Some(field) = pair_of(text, 18446744073709551615, 18446744073709551615) else {
        return unread();
    };
    say_string(
        string_at(
            packet,
            BitOffset(field.first as usize),
            field.second as usize,
        ),
        field.second,
    )
}

fn say_line(found: Result<i64, LineError>) -> Answer
    ensures { result ≡ line_answer (said_on_line found) }
{
    match found {
        Ok(y) => say_integer(y),
        Err(error) => match error {
            LineError::Beyond => say_words(b"out of range"),
            LineError::NoLine => say_words(b"no line"),
        },
    }
}

pub fn ask_line(text: &[u8]) -> Answer
    ensures { result ≡ line_reply text.now }
{
    if column_count(text) != 5 {
        return unread();
    }
    let Some(x0) = integer_at(text, 0) else {
        return unread();
    };
    let Some(y0) = integer_at(text, 1) else {
        return unread();
    };
    let Some(x1) = integer_at(text, 2) else {
        return unread();
    };
    let Some(y1) = integer_at(text, 3) else {
        return unread();
    };
    let Some(x) = integer_at(text, 4) else {
        return unread();
    };
    say_line(on_line(Point { x: x0, y: y0 }, Point { x: x1, y: y1 }, x))
}
