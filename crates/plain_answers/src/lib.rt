// Each kind of answer as a refusal or as values.
#![tactic(auto)]

ghost use Rattle.std.specs.Prelude.{◌≡◌};
ghost use Rattle.import.specs.Judged as import;
ghost use Rattle.outcomes.specs.Values.{value_of};
ghost use Rattle.identification.specs.Identification.{said_identified};
ghost use Rattle.readings.specs.Readings.{said_reading};
ghost use Rattle.engineering.specs.Engineering.{said_engineered};
ghost use Rattle.accepting.specs.Answer.{said_step};
ghost use Rattle.plain_answers.specs.Values.{counts_of, of_counts, of_identity, of_value, of_reading, of_engineered, of_state};
ghost use Rattle.telling.specs.Answers.{told_plainly, with_these_values, plain_of};

use accepting::step::Stepped;
use engineering::engineer::Engineered;
use identification::Identity;
use import::Imported;
use outcomes::{Refusal, Value};
use polynomials::bits_of;
use readings::Reading;
use telling::Telling;
use telling::tell::{tell, tell_refusal};
use telling::words::{as_flag, as_word};

pub fn tell_imported(imported: Result<Imported, Refusal>) -> Telling
    ensures { told_plainly result ≡ plain_of of_counts (counts_of (import.said_imported imported)) }
{
    match imported {
        Ok(counts) => {
            let all = as_word(counts.rows as u64);
            let fine = as_word(counts.good as u64);
            tell([all, fine, 0, 0, 0, 0, 0, 0], 2)
        }
        Err(refusal) => tell_refusal(refusal),
    }
}

pub fn tell_identified(identified: Result<Identity, Refusal>) -> Telling
    ensures { told_plainly result ≡ plain_of of_identity (said_identified identified) }
{
    match identified {
        Ok(identity) => {
            let n = identity.numbers;
            let number = as_word(identity.row.0 as u64);
            let packet = as_word(identity.spid.0 as u64);
            let apid = as_word(n.apid as u64);
            let ptype = as_word(n.ptype as u64);
            let stype = as_word(n.stype as u64);
            let pi1 = as_word(n.pi1);
            let pi2 = as_word(n.pi2);
            tell([number, packet, apid, ptype, stype, pi1, pi2, 0], 7)
        }
        Err(refusal) => tell_refusal(refusal),
    }
}

fn tell_read(value: Value, valid: bool) -> Telling
    ensures { told_plainly result ≡ with_these_values (of_reading (record { value = value_of value; valid = valid })) }
{
    match value {
        Value::Number(v) => tell([0, v, as_flag(valid), 0, 0, 0, 0, 0], 3),
        Value::Part(from, bytes) => {
            let start = as_word(from.0 as u64);
            let length = as_word(bytes as u64);
            tell([1, start, length, as_flag(valid), 0, 0, 0, 0], 4)
        }
        Value::Bits(pattern, width) => {
            let bits = as_word(pattern);
            let count = as_word(width as u64);
            tell([2, bits, count, as_flag(valid), 0, 0, 0, 0], 4)
        }
    }
}

pub fn tell_extracted(reading: Result<Reading, Refusal>) -> Telling
    ensures { told_plainly result ≡ plain_of of_reading (said_reading reading) }
{
    match reading {
        Ok(read) => tell_read(read.value, read.valid),
        Err(refusal) => tell_refusal(refusal),
    }
}

fn tell_value(value: Value) -> Telling
    ensures { told_plainly result ≡ with_these_values (of_value 4 (value_of value)) }
{
    match value {
        Value::Number(v) => tell([0, v, 0, 0, 0, 0, 0, 0], 2),
        Value::Part(from, bytes) => {
            let start = as_word(from.0 as u64);
            let length = as_word(bytes as u64);
            tell([1, start, length, 0, 0, 0, 0, 0], 3)
        }
        Value::Bits(pattern, width) => {
            let bits = as_word(pattern);
            let count = as_word(width as u64);
            tell([4, bits, count, 0, 0, 0, 0, 0], 3)
        }
    }
}

pub fn tell_engineered(engineered: Result<Engineered, Refusal>) -> Telling
    ensures { told_plainly result ≡ plain_of of_engineered (said_engineered engineered) }
{
    match engineered {
        Ok(value) => match value {
            Engineered::Is(v) => tell_value(v),
            Engineered::Double(x) => tell([3, as_word(bits_of(x)), 0, 0, 0, 0, 0, 0], 2),
            Engineered::Text(text) => {
                let number = as_word(text.row.0 as u64);
                let start = as_word(text.start.0 as u64);
                let length = as_word(text.bytes as u64);
                tell([2, number, start, length, 0, 0, 0, 0], 4)
            }
        },
        Err(refusal) => tell_refusal(refusal),
    }
}

pub fn tell_stepped(stepped: Stepped) -> Telling
    ensures { told_plainly result ≡ plain_of of_state (said_step stepped.answer stepped.state) }
{
    let state = stepped.state;
    let taken = stepped.answer;
    match taken {
        Ok(()) => {
            let fresh = as_flag(state.fresh);
            let apid = as_word(state.apid as u64);
            let count = as_word(state.count as u64);
            let run = as_word(state.run as u64);
            let announced = as_word(state.announced as u64);
            tell([fresh, apid, count, run, announced, 0, 0, 0], 5)
        }
        Err(refusal) => tell_refusal(refusal),
    }
}
