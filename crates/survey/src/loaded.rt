// Tables loaded once for all packets.
ghost use Rattle.std.specs.Prelude.{◌≡◌, map};
ghost use Rattle.surveying.specs.Archive.{nothing_read};
ghost use Rattle.survey.specs.OfTables.{OfTables};

use crate::archive::survey_archive;
use database::COLUMNS;
use full_loading::load_full;
use kept::{LINKS, WORDS};
use outcomes::{Refusal, number_of, place_of};
use std::rt::Files;
use surveying::archive::{Standing, at_start};
use surveying::asking::Question;
use tables::TABLES;
use words::refusals::say_refused;

// Refused tables are said, with 01's number and place: nothing is read then.
fn refuse(rt: &impl Print, refusal: Refusal) -> Standing
    ensures { result ≡ nothing_read }
{
    say_refused(rt, number_of(refusal) as usize, place_of(refusal));
    at_start()
}

// The packets of the file, by the good rows of the tables.
pub(crate) fn survey_tables(
    rt: &(impl Print + Files),
    tables: [&[u8]; TABLES],
    name: &[u8],
    file: &[u8],
    question: Question,
) -> Standing
    ensures { OfTables (map (λ x. x.now) tables.entry) name.now question result }
{
    let mut words = [0u64; WORDS];
    let mut links = [0u16; LINKS];
    let mut columns = [0u16; COLUMNS];
    match load_full(tables, &mut words, &mut links, &mut columns) {
        Ok(()) => { survey_archive(rt, tables, &words, &links, &columns, name, file, question) }
        Err(refusal) => refuse(rt, refusal),
    }
}
