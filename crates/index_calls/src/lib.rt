// The calls with an index: each loads the tables first, and promises what its definition says of their good rows.
#![tactic(auto)]

ghost use Rattle.std.specs.Prelude.{◌≡◌, map, length};
ghost use Rattle.database.specs.Arrays.{database, answers};
ghost use Rattle.packet_index.specs.Making.{index_of};
ghost use Rattle.index_entries.specs.Loaded.{packets_in};
ghost use Rattle.outcomes.specs.Refusals.{said};
ghost use Rattle.searching.specs.Search.{search_by, said_search};
ghost use Rattle.index_calls.specs.IndexCalls.{search_of, where_room, made_of, count_of, list_after};

use database::COLUMNS;
use full_loading::load_full;
use index_making::make_index;
use kept::{LINKS, WORDS};
use outcomes::Refusal;
use searching::{Search, search_in};
use tables::TABLES;

// The arrays as slices.
fn search_full(
    tables: [&[u8]; TABLES],
    words: &[u64; WORDS],
    links: &[u16; LINKS],
    columns: &[u16; COLUMNS],
    index: &[u16],
    p: &[u8],
) -> Result<Search, Refusal>
    ensures { said_search result
        ≡ search_by (answers (database (map (λ x. x.now) tables.entry) words.now links.now columns.now))
        index.now p.now }
{
    search_in(tables, words, links, columns, index, p)
}

// Which packet it is, by a search of an index.
pub fn search(tables: [&[u8]; TABLES], p: &[u8], index: &[u16]) -> Result<Search, Refusal>
    ensures { said_search result ≡ search_of (map (λ x. x.now) tables.entry) index.now p.now }
{
    let mut words = [0u64; WORDS];
    let mut links = [0u16; LINKS];
    let mut columns = [0u16; COLUMNS];
    load_full(tables, &mut words, &mut links, &mut columns)?;
    search_full(tables, &words, &links, &columns, index, p)
}

// The index, put to the first places of a list.
fn make_full(
    tables: [&[u8]; TABLES],
    words: &[u64; WORDS],
    links: &[u16; LINKS],
    columns: &[u16; COLUMNS],
    rows: &mut [u16],
) -> Result<usize, Refusal>
    ensures result_value { said result ≡ count_of (where_room (length rows.old)
        (index_of (packets_in (map (λ x. x.now) tables.entry) words.now links.now columns.now))) }
    ensures rows_after { rows.new ≡ list_after rows.old (where_room (length rows.old)
        (index_of (packets_in (map (λ x. x.now) tables.entry) words.now links.now columns.now))) }
{
    match make_index(tables, words, links, columns, rows) {
        Some(count) => Ok(count),
        None => Err(Refusal::TooFewCells),
    }
}

// The same of tables.
pub fn make(tables: [&[u8]; TABLES], rows: &mut [u16]) -> Result<usize, Refusal>
    ensures result_value { said result ≡ count_of (made_of (map (λ x. x.now) tables.entry) (length rows.old)) }
    ensures rows_after { rows.new ≡ list_after rows.old (made_of (map (λ x. x.now) tables.entry) (length rows.old)) }
{
    let mut words = [0u64; WORDS];
    let mut links = [0u16; LINKS];
    let mut columns = [0u16; COLUMNS];
    load_full(tables, &mut words, &mut links, &mut columns)?;
    make_full(tables, &words, &links, &columns, rows)
}
