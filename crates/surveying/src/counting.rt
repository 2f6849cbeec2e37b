// The packets that stand in bytes, counted by whether they are answered, and what their answers weigh together.
ghost use Rattle.std.specs.Prelude.{◌≡◌, map};
ghost use Rattle.database.specs.Arrays.{database, answers};
ghost use Rattle.surveying.specs.Surveys.{noted, Surveys};

use crate::asking::{Question, ask};
use archives::packet_at;
use lines::columns::part;
use std::num::{wrapping_add_u64, wrapping_add_usize};
use tables::TABLES;

#[derive(Clone, Copy)]
pub struct Tally {
    pub answered: usize,
    pub refused: usize,
    pub weight: u64,
}

// The same, and where the bytes begin that are left over.
#[derive(Clone, Copy)]
pub struct Surveyed {
    pub tally: Tally,
    pub used: usize,
}

// One packet more, by the weight of its answer; none of one that is refused.
fn note(tally: Tally, told: Option<u64>) -> Tally
    ensures { result ≡ noted tally told }
{
    match told {
        Some(weight) => Tally {
            answered: wrapping_add_usize(tally.answered, 1),
            refused: tally.refused,
            weight: wrapping_add_u64(tally.weight, weight),
        },
        None => Tally {
            answered: tally.answered,
            refused: wrapping_add_usize(tally.refused, 1),
            weight: tally.weight,
        },
    }
}

// Asks of each packet in its turn, up to the first that is not there to its end.
pub(crate) fn survey(
    tables: [&[u8]; TABLES],
    words: &[u64],
    links: &[u16],
    columns: &[u16],
    name: &[u8],
    question: Question,
    bytes: &[u8],
    begun: Tally,
) -> Surveyed
    ensures { Surveys (answers (database (map (λ x. x.now) tables.entry) words.now links.now columns.now))
        name.now question begun bytes.now result.tally result.used }
{
    let mut tally = begun;
    let mut at = 0;
    while let Some(end) = packet_at(bytes, at) {
        let packet = part(bytes, at, end);
        let told = ask(tables, words, links, columns, name, question, packet);
        tally = note(tally, told);
        at = end;
    }
    Surveyed { tally, used: at }
}
