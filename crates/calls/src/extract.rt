// What a packet says of a parameter.
ghost use Rattle.std.specs.Prelude.{◌≡◌, map};
ghost use Rattle.readings.specs.Readings.{said_reading};
ghost use Rattle.calls.specs.Calls.{extract_of};

use crate::ask::ask;
use answering::{Answered, Call};
use outcomes::Refusal;
use readings::Reading;
use tables::TABLES;

// An answer of another kind never comes.
pub fn extract(
    tables: [&[u8]; TABLES],
    p: &[u8],
    name: &[u8],
    occurrence: usize,
) -> Result<Reading, Refusal>
    ensures { said_reading result ≡ extract_of (map (λ x. x.now) tables.entry) p.now name.now occurrence }
{
    match ask(tables, p, name, Call::Extract(occurrence)) {
        Answered::Read(reading) => reading,
        _ => Err(Refusal::NoPidRow),
    }
}
