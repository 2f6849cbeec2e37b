// The answers to the questions of packets, in words and numbers.
ghost use Rattle.std.specs.Prelude.{◌≡◌};
ghost use Rattle.outcomes.specs.Refusals.{refusal_number, refusal_place};
ghost use Rattle.outcomes.specs.Values.{value_of, number, part};
ghost use Rattle.identification.specs.Identification.{said_identified};
ghost use Rattle.readings.specs.Readings.{said_reading};
ghost use Rattle.engineering.specs.Engineering.{text, said_engineered};
ghost use Rattle.accepting.specs.Answer.{said_step};
ghost use Rattle.answers.specs.Answers.{refusing};
ghost use Rattle.replies.specs.Replies.{reply_of, identity_answer, raw_answer, reading_answer, value_answer, engineered_answer, state_answer};

use accepting::step::Stepped;
use answers::answer::{Answer, compose, one, refused, say_integer, says, two};
use curves::ints::{less, size};
use engineering::engineer::Engineered;
use hex_answers::{say_bits, say_bits_read, say_double};
use identification::Identity;
use limit_state::state::LimitState;
use outcomes::{Refusal, Value, number_of, place_of};
use polynomials::bits_of;
use readings::Reading;

pub fn refused_question(refusal: Refusal) -> Answer
    ensures { result ≡ refusing (refusal_number refusal) (refusal_place refusal) }
{
    refused(number_of(refusal) as u64, place_of(refusal) as u64)
}

pub fn say_identified(identified: Result<Identity, Refusal>) -> Answer
    ensures { result ≡ reply_of identity_answer (said_identified identified) }
{
    match identified {
        Ok(identity) => says(
            b"row #, SPID #, APID #, type #, subtype #, PI1 #, PI2 #",
            false,
            [
                identity.row.0 as u64,
                identity.spid.0 as u64,
                identity.numbers.apid as u64,
                identity.numbers.ptype as u64,
                identity.numbers.stype as u64,
                identity.numbers.pi1,
                identity.numbers.pi2,
            ],
        ),
        Err(refusal) => refused_question(refusal),
    }
}

fn say_raw_number(v: i64, valid: bool) -> Answer
    ensures { result ≡ raw_answer (number v) valid }
{
    let negative = less(v, 0);
    let magnitude = size(v);
    if valid {
        return says(b"#, valid", negative, one(magnitude));
    }
    says(b"#, invalid", negative, one(magnitude))
}

fn say_raw_part(from: u64, bytes: u64, valid: bool) -> Answer
    ensures { result ≡ raw_answer (part from bytes) valid }
{
    if valid {
        return says(b"string from #, # bytes, valid", false, two(from, bytes));
    }
    says(b"string from #, # bytes, invalid", false, two(from, bytes))
}

fn say_raw(value: Value, valid: bool) -> Answer
    ensures { result ≡ raw_answer (value_of value) valid }
{
    match value {
        Value::Number(v) => say_raw_number(v, valid),
        Value::Part(from, bytes) => say_raw_part(from.0 as u64, bytes as u64, valid),
        Value::Bits(pattern, width) => say_bits_read(pattern, width, valid),
    }
}

pub fn say_reading(reading: Result<Reading, Refusal>) -> Answer
    ensures { result ≡ reply_of reading_answer (said_reading reading) }
{
    match reading {
        Ok(read) => say_raw(read.value, read.valid),
        Err(refusal) => refused_question(refusal),
    }
}

fn say_value(value: Value) -> Answer
    ensures { result ≡ value_answer (value_of value) }
{
    match value {
        Value::Number(v) => say_integer(v),
        Value::Part(from, bytes) => says(
            b"string from #, # bytes",
            false,
            two(from.0 as u64, bytes as u64),
        ),
        Value::Bits(pattern, width) => say_bits(pattern, width),
    }
}

fn say_text(row: u64, from: usize, bytes: usize) -> Answer
    ensures { result ≡ engineered_answer (text (record { row = row; start = from; bytes = bytes })) }
{
    let values = [row, from as u64, bytes as u64, 0, 0, 0, 0];
    compose(
        b"text of row # from #, # bytes: ",
        false,
        values,
        from,
        bytes,
        0,
    )
}

pub fn say_engineered(engineered: Result<Engineered, Refusal>) -> Answer
    ensures { result ≡ reply_of engineered_answer (said_engineered engineered) }
{
    match engineered {
        Ok(value) => match value {
            Engineered::Is(v) => say_value(v),
            Engineered::Double(x) => say_double(bits_of(x)),
            Engineered::Text(text) => say_text(text.row.0 as u64, text.start.0, text.bytes),
        },
        Err(refusal) => refused_question(refusal),
    }
}

fn say_state(state: LimitState) -> Answer
    ensures { result ≡ state_answer state }
{
    let apid = state.apid as u64;
    let count = state.count as u64;
    let run = state.run as u64;
    let announced = state.announced as u64;
    says(
        b"APID #, count #, run #, announced #",
        false,
        [apid, count, run, announced, 0, 0, 0],
    )
}

pub fn say_stepped(stepped: Stepped) -> Answer
    ensures { result ≡ reply_of state_answer (said_step stepped.answer stepped.state) }
{
    let state = stepped.state;
    let taken = stepped.answer;
    match taken {
        Ok(()) => say_state(state),
        Err(reason) => refused_question(reason),
    }
}
