// The packets of loaded tables: an entry of an index, and how many there are.
#![tactic(auto)]

ghost use Rattle.std.specs.Prelude.{◌≡◌, ◌&&◌, map, suc, leb, ltb};
ghost use Rattle.laws.specs.Prefix.{count_with};
ghost use Rattle.verdicts.specs.Answer.{most_rows};
ghost use Rattle.packet_index.specs.Index.{is_packet, numbers_at};
ghost use Rattle.index_entries.specs.Loaded.{packets_in, entry_of};

use key_symbols::FiveNumbers;
use packet_rows::packet_at;
use tables::{MOST_ROWS, TABLES};

// The row that an entry of an index names.
pub fn row_of(entry: u16) -> usize
    ensures { result ≡ entry }
{
    entry as usize
}

// Whether a table that is taken can have this row.
fn is_row(row: usize) -> bool
    ensures { result ≡ (ltb 0 row && leb row most_rows) }
{
    if 0 < row {
        return row <= MOST_ROWS;
    }
    false
}

// The five numbers of pid row `row`, zeros where it has none: Ok of a row that is one of the packets, Err of another.
pub fn entry_at(
    tables: [&[u8]; TABLES],
    words: &[u64],
    links: &[u16],
    columns: &[u16],
    row: usize,
) -> Result<FiveNumbers, FiveNumbers>
    ensures { result ≡ entry_of (packets_in (map (λ x. x.now) tables.entry) words.now links.now columns.now) row }
{
    match packet_at(tables, words, links, columns, row) {
        Some(numbers) => {
            if is_row(row) {
                return Ok(numbers);
            }
            Err(numbers)
        }
        None => Err(FiveNumbers {
            ptype: 0,
            stype: 0,
            apid: 0,
            pi1: 0,
            pi2: 0,
        }),
    }
}

// The same, whether the row is one of the packets or not.
pub fn numbers_at(
    tables: [&[u8]; TABLES],
    words: &[u64],
    links: &[u16],
    columns: &[u16],
    row: usize,
) -> FiveNumbers
    ensures { result ≡ numbers_at (packets_in (map (λ x. x.now) tables.entry) words.now links.now columns.now) row }
{
    match entry_at(tables, words, links, columns, row) {
        Ok(numbers) => numbers,
        Err(numbers) => numbers,
    }
}

// Whether pid row `row` is one of the packets.
fn is_packet(
    tables: [&[u8]; TABLES],
    words: &[u64],
    links: &[u16],
    columns: &[u16],
    row: usize,
) -> bool
    ensures { result ≡ is_packet (packets_in (map (λ x. x.now) tables.entry) words.now links.now columns.now) row }
{
    match entry_at(tables, words, links, columns, row) {
        Ok(_) => true,
        Err(_) => false,
    }
}

// How many rows are packets.
pub fn count_packets(
    tables: [&[u8]; TABLES],
    words: &[u64],
    links: &[u16],
    columns: &[u16],
) -> usize
    ensures { result
        ≡ count_with (is_packet (packets_in (map (λ x. x.now) tables.entry) words.now links.now columns.now)) (suc most_rows) }
{
    let mut count: usize = 0;
    let mut row: usize = 1;
    while row <= MOST_ROWS {
        if is_packet(tables, words, links, columns, row) {
            count += 1;
        }
        row += 1;
    }
    count
}
