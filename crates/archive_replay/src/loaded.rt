// Tables loaded once for all packets.
ghost use Rattle.std.specs.Prelude.{map};
ghost use Rattle.database.specs.GoodRows.{of_tables};
ghost use Rattle.replaying.specs.Replayed.{AtStart, Replayed};

use crate::archive::replay_archive;
use database::COLUMNS;
use full_loading::load_full;
use outcomes::{Refusal, number_of, place_of};
use replaying::{Standing, at_start};
use showing::stretches::Showing;
use std::rt::Files;
use symbols::{LINKS, WORDS};
use tables::TABLES;
use words::refusals::say_refused;

// Refused tables are said, with 01's number and place: nothing is read then.
fn refuse(rt: &impl Print, refusal: Refusal) -> Standing
    ensures { AtStart result }
{
    say_refused(rt, number_of(refusal) as usize, place_of(refusal));
    at_start()
}

// The packets of the file, by the good rows of the tables. The arrays are lent at their full size.
pub fn replay_tables(
    rt: &(impl Print + Eprint + Files),
    tables: [&[u8]; TABLES],
    name: &[u8],
    file: &[u8],
    showing: Showing,
) -> Standing
    ensures { Replayed (of_tables (map (λ x. x.now) tables.entry)) name.now result }
{
    let mut words = [0u64; WORDS];
    let mut links = [0u16; LINKS];
    let mut columns = [0u16; COLUMNS];
    match load_full(tables, &mut words, &mut links, &mut columns) {
        Ok(()) => { replay_archive(rt, tables, &words, &links, &columns, name, file, showing) }
        Err(refusal) => refuse(rt, refusal),
    }
}
