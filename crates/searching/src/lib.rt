// Which packet it is, by a search of an index of the pid rows.
#![tactic(auto)]

ghost use Rattle.std.specs.Prelude.{◌≡◌, true, map};
ghost use Rattle.database.specs.Arrays.{database, answers};
ghost use Rattle.outcomes.specs.Outcome.{answer, and_then};
ghost use Rattle.five_numbers.specs.Numbers.{five_numbers};
ghost use Rattle.packet_index.specs.Index.{is_index};
ghost use Rattle.index_entries.specs.Loaded.{packets_in};
ghost use Rattle.searching.specs.Search.{compared_by, search_by, compared_in, said_search};

use arrays::half_at;
use five_numbers::{identifiers_of, numbers_of};
use found_rows::spid_at;
use headers::{Head, read_header};
use identification::Identity;
use index_search::search_index;
use index_test::is_index;
use key_symbols::FiveNumbers;
use outcomes::Refusal;
use tables::TABLES;
use units::RowNumber;

// Which packet it is, if a pid row has its five numbers; and how many entries were compared.
#[derive(Clone, Copy)]
pub struct Search {
    pub found: Option<Identity>,
    pub compared: usize,
}

// The row that the five numbers choose, in an index.
fn search_numbers(
    tables: [&[u8]; TABLES],
    words: &[u64],
    links: &[u16],
    columns: &[u16],
    index: &[u16],
    numbers: FiveNumbers,
) -> Search
    requires { is_index (packets_in (map (λ x. x.now) tables) words.now links.now columns.now) index.now ≡ true }
    ensures { compared_in result
        ≡ compared_by (answers (database (map (λ x. x.now) tables.entry) words.now links.now columns.now))
        index.now numbers }
{
    let searched = search_index(tables, words, links, columns, index, numbers);
    let compared = searched.compared;
    if !searched.found {
        return Search {
            found: None,
            compared,
        };
    }
    let entry = half_at(index, searched.place) as usize;
    let spid = spid_at(tables, columns, entry - 1);
    let found = Identity {
        row: RowNumber(entry),
        spid,
        numbers,
    };
    Search {
        found: Some(found),
        compared,
    }
}

// The same for a packet whose header is known.
fn search_headed(
    tables: [&[u8]; TABLES],
    words: &[u64],
    links: &[u16],
    columns: &[u16],
    index: &[u16],
    p: &[u8],
    head: Head,
) -> Result<Search, Refusal>
    requires { is_index (packets_in (map (λ x. x.now) tables) words.now links.now columns.now) index.now ≡ true }
    ensures { said_search result
        ≡ and_then (five_numbers (answers (database (map (λ x. x.now) tables.entry) words.now links.now columns.now))
        head p.now)
        (λ n. answer (compared_by (answers (database (map (λ x. x.now) tables.entry) words.now links.now columns.now))
        index.now n)) }
{
    let pair = identifiers_of(tables, words, links, columns, p, head)?;
    let numbers = numbers_of(p, head, pair);
    Ok(search_numbers(tables, words, links, columns, index, numbers))
}

// The list is tested first, then the header is read.
pub fn search_in(
    tables: [&[u8]; TABLES],
    words: &[u64],
    links: &[u16],
    columns: &[u16],
    index: &[u16],
    p: &[u8],
) -> Result<Search, Refusal>
    ensures { said_search result
        ≡ search_by (answers (database (map (λ x. x.now) tables.entry) words.now links.now columns.now))
        index.now p.now }
{
    if !is_index(tables, words, links, columns, index) {
        return Err(Refusal::NoIndex);
    }
    let head = read_header(p)?;
    search_headed(tables, words, links, columns, index, p, head)
}
