// The search of an index, by loaded tables.
#![tactic(auto)]

ghost use Rattle.std.specs.Prelude.{◌≡◌, map};
ghost use Rattle.packet_index.specs.Index.{numbers_at};
ghost use Rattle.packet_index.specs.Search.{searched};
ghost use Rattle.index_entries.specs.Loaded.{packets_in};

use index_entries::{numbers_at, row_of};
use key_symbols::FiveNumbers;
use packet_index::Searched;
use packet_order::{Order, compare};
use tables::TABLES;

fn told(found: bool, place: usize, compared: usize) -> Searched
    ensures { (result.found ≡ found) × (result.place ≡ place) × (result.compared ≡ compared) }
{
    Searched {
        found,
        place,
        compared,
    }
}

// The entry with these numbers, by halves. Any list will do; it finds what is there where the list is the index.
pub fn search_index(
    tables: [&[u8]; TABLES],
    words: &[u64],
    links: &[u16],
    columns: &[u16],
    index: &[u16],
    numbers: FiveNumbers,
) -> Searched
    ensures { result ≡ searched numbers
        (map (numbers_at (packets_in (map (λ x. x.now) tables.entry) words.now links.now columns.now)) index.now) }
{
    let mut before: usize = 0;
    let mut left: usize = index.len();
    let mut compared: usize = 0;
    while 0 < left {
        let last = left - 1;
        let half = left / 2;
        let middle = before + half;
        let count = compared + 1;
        let stored = numbers_at(tables, words, links, columns, row_of(index[middle]));
        let order = compare(numbers, stored);
        match order {
            Order::Before => {
                left = half;
                compared = count;
            }
            Order::Same => return told(true, middle, count),
            Order::After => {
                before = middle + 1;
                left = last - half;
                compared = count;
            }
        }
    }
    told(false, before, compared)
}
