// The questions of an index: a search of a list of pid rows, and the index of the tables.
#![tactic(auto)]

ghost use Rattle.std.specs.Prelude.{◌≡◌, map, ◌≤◌, length, take};
ghost use Rattle.searching.specs.Search.{said_search};
ghost use Rattle.outcomes.specs.Refusals.{said};
ghost use Rattle.index_calls.specs.IndexCalls.{search_of};
ghost use Rattle.replies.specs.Replies.{reply_of};
ghost use Rattle.index_questions.specs.IndexReplies.{compared_answer, search_reply, told_of, entries_lent};
ghost use Rattle.index_questions.specs.IndexReplies.{index_answer, index_left, index_in, index_reply, index_reply_to};

use answers::answer::{Answer, says, unread};
use arrays::half_at;
use index_calls::{make, search};
use lines::columns::part;
use number_lists::read_list;
use outcomes::Refusal;
use replies::packet_replies::refused_question;
use scripts::operands::natural_to;
use searching::Search;
use tables::{MOST_ROWS, TABLES};

// The most entries that a list has: more than any index, so that one that is too long can be asked about.
const ENTRIES: usize = 1100;

// Where no pid row is found too, it is said how many entries were compared.
fn say_search(searched: Result<Search, Refusal>) -> Answer
    ensures { result ≡ reply_of compared_answer (said_search searched) }
{
    match searched {
        Ok(s) => match s.found {
            Some(id) => says(
                b"row #, SPID #, compared #",
                false,
                [
                    id.row.0 as u64,
                    id.spid.0 as u64,
                    s.compared as u64,
                    0,
                    0,
                    0,
                    0,
                ],
            ),
            None => says(
                b"refused # at #, compared #",
                false,
                [25, 0, s.compared as u64, 0, 0, 0, 0],
            ),
        },
        Err(refusal) => refused_question(refusal),
    }
}

// Of the first entries of an array.
fn search_first(tables: [&[u8]; TABLES], packet: &[u8], list: &[u16], n: usize) -> Answer
    requires { n ≤ length list.now }
    ensures { result ≡ reply_of compared_answer (search_of (map (λ x. x.now) tables.entry) (take n list.now) packet.now) }
{
    say_search(search(tables, packet, &list[..n]))
}

// The list is read into a lent array.
fn search_read(
    tables: [&[u8]; TABLES],
    packet: &[u8],
    text: &[u8],
    list: &mut [u16; ENTRIES],
) -> Answer
    ensures { result ≡ search_reply (map (λ x. x.now) tables.entry) packet.now text.now }
{
    match read_list(text, list) {
        Some(n) => search_first(tables, packet, list, n),
        None => unread(),
    }
}

fn ask_search(tables: [&[u8]; TABLES], packet: &[u8], text: &[u8]) -> Answer
    ensures { result ≡ search_reply (map (λ x. x.now) tables.entry) packet.now text.now }
{
    let mut list = [0u16; ENTRIES];
    search_read(tables, packet, text, &mut list)
}

// Of so many rows at most six are told.
fn told_of(count: usize) -> usize
    ensures { (result ≡ told_of count) × (result ≤ 6) }
{
    if count < 6 {
        return count;
    }
    6
}

// How many rows the index has, and the first six of them.
fn say_index(count: usize, rows: &[u16]) -> Answer
    ensures { result ≡ index_answer rows.now count }
{
    let template = *b"# rows: # # # # # #";
    let values = [
        count as u64,
        half_at(rows, 0) as u64,
        half_at(rows, 1) as u64,
        half_at(rows, 2) as u64,
        half_at(rows, 3) as u64,
        half_at(rows, 4) as u64,
        half_at(rows, 5) as u64,
    ];
    let told = told_of(count);
    says(part(&template, 0, 7 + 2 * told), false, values)
}

fn say_made(made: Result<usize, Refusal>, rows: &[u16]) -> Answer
    ensures { result ≡ reply_of (index_answer rows.now) (said made) }
{
    match made {
        Ok(count) => say_index(count, rows),
        Err(refusal) => refused_question(refusal),
    }
}

fn index_into(tables: [&[u8]; TABLES], rows: &mut [u16]) -> Answer
    ensures { result ≡ index_left (map (λ x. x.now) tables.entry) rows.old }
{
    let made = make(tables, rows);
    say_made(made, rows)
}

// Into the first places of an array.
fn index_first(tables: [&[u8]; TABLES], rows: &mut [u16], room: usize) -> Answer
    requires { room ≤ length rows.old }
    ensures { result ≡ index_left (map (λ x. x.now) tables.entry) (take room rows.old) }
{
    index_into(tables, &mut rows[..room])
}

// How many places are lent: as many as a table has rows where it isn't said.
fn entries_lent(text: &[u8]) -> Option<u64>
    ensures { result ≡ entries_lent text.now }
{
    if text.len() == 0 {
        return Some(MOST_ROWS as u64);
    }
    natural_to(ENTRIES as u64, text)
}

fn index_lent(tables: [&[u8]; TABLES], text: &[u8], rows: &mut [u16; ENTRIES]) -> Answer
    ensures { result ≡ index_in (map (λ x. x.now) tables.entry) rows.old text.now }
{
    match entries_lent(text) {
        Some(room) => index_first(tables, rows, room as usize),
        None => unread(),
    }
}

fn ask_index(tables: [&[u8]; TABLES], text: &[u8]) -> Answer
    ensures { result ≡ index_reply (map (λ x. x.now) tables.entry) text.now }
{
    let mut rows = [0u16; ENTRIES];
    index_lent(tables, text, &mut rows)
}

// The questions of an index, by their number in the list of questions.
pub fn answer_by_index(k: usize, tables: [&[u8]; TABLES], packet: &[u8], text: &[u8]) -> Answer
    ensures { result ≡ index_reply_to k (map (λ x. x.now) tables.entry) packet.now text.now }
{
    if k == 12 {
        return ask_search(tables, packet, text);
    }
    ask_index(tables, text)
}
