// Any call with tables and a packet: the tables are loaded, and the call is answered by the database.
ghost use Rattle.std.specs.Prelude.{map};
ghost use Rattle.database.specs.Arrays.{database, answers};
ghost use Rattle.answering.specs.Answering.{Answering};
ghost use Rattle.calls.specs.Tables.{asking};

use answering::{Answered, Call, answer_in, refuse};
use database::COLUMNS;
use full_loading::load_full;
use kept::{LINKS, WORDS};
use tables::TABLES;

// The arrays as slices.
fn answer_full(
    tables: [&[u8]; TABLES],
    words: &[u64; WORDS],
    links: &[u16; LINKS],
    columns: &[u16; COLUMNS],
    p: &[u8],
    name: &[u8],
    call: Call,
) -> Answered
    ensures { Answering (λ _ ask. ask (answers (database (map (λ x. x.now) tables.entry) words.now links.now columns.now)))
        p.now name.now call result }
{
    answer_in(tables, words, links, columns, p, name, call)
}

// The only function here that has the arrays of the database.
pub(crate) fn ask(tables: [&[u8]; TABLES], p: &[u8], name: &[u8], call: Call) -> Answered
    ensures { Answering (λ _ ask. asking (map (λ x. x.now) tables.entry) ask) p.now name.now call result }
{
    let mut words = [0u64; WORDS];
    let mut links = [0u16; LINKS];
    let mut columns = [0u16; COLUMNS];
    match load_full(tables, &mut words, &mut links, &mut columns) {
        Ok(()) => answer_full(tables, &words, &links, &columns, p, name, call),
        Err(refusal) => refuse(call, p, name, refusal),
    }
}
