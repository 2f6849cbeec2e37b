// What a question tells of a packet.
ghost use Rattle.std.specs.Prelude.{◌≡◌, map};
ghost use Rattle.outcomes.specs.Values.{value_of};
ghost use Rattle.database.specs.Arrays.{database, answers};
ghost use Rattle.identification.specs.Identification.{said_identified};
ghost use Rattle.readings.specs.Readings.{said_reading};
ghost use Rattle.engineering.specs.Engineering.{said_engineered};
ghost use Rattle.surveying.specs.Told.{weight_of, tell_identity, tell_reading, tell_engineered, told};

use curves::ints::size;
use engineering::engineer::Engineered;
use extraction::engineer::engineer_in;
use extraction::extract::extract_in;
use identification::{Identity, identify_in};
use outcomes::{Refusal, Value};
use polynomials::bits_of;
use readings::Reading;
use tables::TABLES;

#[derive(Clone, Copy)]
pub enum Question {
    Identify,
    Extract,
    Engineer,
}

fn weigh(value: Value) -> u64
    ensures { result ≡ weight_of (value_of value) }
{
    match value {
        Value::Number(v) => size(v),
        Value::Part(from, _) => from.0 as u64,
        Value::Bits(pattern, _) => pattern,
    }
}

fn tell_identity(identified: Result<Identity, Refusal>) -> Option<u64>
    ensures { result ≡ tell_identity (said_identified identified) }
{
    match identified {
        Ok(identity) => Some(identity.spid.0 as u64),
        Err(_) => None,
    }
}

fn tell_reading(reading: Result<Reading, Refusal>) -> Option<u64>
    ensures { result ≡ tell_reading (said_reading reading) }
{
    match reading {
        Ok(read) => {
            if read.valid {
                return Some(weigh(read.value));
            }
            Some(0)
        }
        Err(_) => None,
    }
}

fn tell_engineered(engineered: Result<Engineered, Refusal>) -> Option<u64>
    ensures { result ≡ tell_engineered (said_engineered engineered) }
{
    match engineered {
        Ok(answer) => match answer {
            Engineered::Is(value) => Some(weigh(value)),
            Engineered::Double(x) => Some(bits_of(x)),
            Engineered::Text(text) => Some(text.start.0 as u64),
        },
        Err(_) => None,
    }
}

// What the answer weighs, none where it is refused. Of a parameter its occurrence 0 is asked for.
pub(crate) fn ask(
    tables: [&[u8]; TABLES],
    words: &[u64],
    links: &[u16],
    columns: &[u16],
    name: &[u8],
    question: Question,
    packet: &[u8],
) -> Option<u64>
    ensures { result ≡ told (answers (database (map (λ x. x.now) tables.entry) words.now links.now columns.now))
        name.now question packet.now }
{
    match question {
        Question::Identify => tell_identity(identify_in(tables, words, links, columns, packet)),
        Question::Extract => {
            tell_reading(extract_in(tables, words, links, columns, packet, name, 0))
        }
        Question::Engineer => {
            tell_engineered(engineer_in(tables, words, links, columns, packet, name, 0))
        }
    }
}
