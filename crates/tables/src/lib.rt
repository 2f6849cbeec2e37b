// The tables as one array of slices: a table by its number, its rows counted, and refusals 1 and 2.
#![tactic(auto)]

ghost use Rattle.std.specs.Prelude.{◌≡◌, cond, map, [], eqb, ◌≤◌, ◌<◌, length, get_or, take};
ghost use Rattle.lines.specs.Lines.{line_feed, lines_of, whole};
ghost use Rattle.verdicts.specs.Entries.{table_count, carried_at};
ghost use Rattle.verdicts.specs.Answer.{too_long, too_many_rows};
ghost use Rattle.outcomes.specs.Refusals.{refusal_number, refusal_place};
ghost use Rattle.tables.specs.Sizes.{refused_by, numbered, said_sizes, size_refusal, sizes_of, feeds};
ghost use Rattle.tables.specs.Parts.{table_in, tables_in};

use lines::columns::part;
use outcomes::Refusal;
use schemas::Table;
use units::TableNumber;

// How many tables there are.
pub const TABLES: usize = 11;

// Which they are, in their order.
const CARRIED: [Table; TABLES] = [
    Table::Pid,
    Table::Pic,
    Table::Plf,
    Table::Pcf,
    Table::Caf,
    Table::Cap,
    Table::Txf,
    Table::Txp,
    Table::Ocf,
    Table::Ocp,
    Table::Mcf,
];

// A table has at most so many bytes and rows.
pub const MOST_BYTES: usize = 65536;

pub const MOST_ROWS: usize = 1024;

// A part of a space for a table: a byte more than it may have, so that one that is too long is refused and not cut.
pub const ROOM: usize = MOST_BYTES + 1;

// An import writes at most so many cells, one for each row of all tables.
pub const MOST_CELLS: usize = TABLES * MOST_ROWS;

const LINE_FEED: u8 = 10;

// Line feeds are counted in blocks of so many bytes.
const BLOCK: usize = 128;

// The first table that is of no size to take.
#[derive(Clone, Copy)]
pub enum SizeError {
    TooLong(TableNumber),
    TooManyRows(TableNumber),
}

impl From<SizeError> for Refusal {
    ghost from_gives = { λ error refusal. size_refusal error ≡ refused_by (refusal_number refusal) (refusal_place refusal) };

    fn from(error: SizeError) -> Refusal {
        match error {
            SizeError::TooLong(table) => Refusal::TableTooLong(table),
            SizeError::TooManyRows(table) => Refusal::TooManyRows(table),
        }
    }
}

// The bytes of the table with this number, from 0; there are none past the last.
pub fn table_at<'a>(tables: [&'a [u8]; TABLES], t: usize) -> &'a [u8]
    ensures { result.now ≡ get_or (map (λ x. x.now) tables.entry) t [] }
{
    if t < TABLES {
        return tables[t];
    }
    let first = tables[0];
    &first[..0]
}

fn end_at(ends: &[usize], t: usize) -> usize
    ensures { result ≡ get_or ends.now t 0 }
{
    if t < ends.len() { ends[t] } else { 0 }
}

fn table_in<'a>(space: &'a [u8], ends: &[usize], t: usize) -> &'a [u8]
    requires { t < table_count }
    ensures { result.now ≡ table_in space.now ends.now t }
{
    part(space, t * ROOM, end_at(ends, t))
}

// The tables of a space in which each has its own part, by where each ends.
pub fn tables_in<'a>(space: &'a [u8], ends: &[usize]) -> [&'a [u8]; TABLES]
    ensures { map (λ x. x.now) result ≡ tables_in space.now ends.now }
{
    let mut tables = [space; TABLES];
    for t in 0..TABLES {
        tables[t] = table_in(space, ends, t);
    }
    tables
}

// Which table has this number, from 0; past the last stands ocp.
pub fn kind_of(t: usize) -> Table
    ensures { result ≡ carried_at t }
{
    if t < TABLES {
        let carried = CARRIED;
        return carried[t];
    }
    Table::Ocp
}

// 1 for a line feed.
fn feed(byte: u8) -> u8
    ensures { (result ≡ cond (eqb byte line_feed) 1 0) × (result ≤ 1) }
{
    if byte == LINE_FEED { 1 } else { 0 }
}

// The line feeds of a few bytes: so few that one byte counts them, which a machine does for many at once.
fn feeds_in(block: &[u8]) -> u8
    requires { length block.now ≤ 128 }
    ensures { result ≡ feeds block.now }
{
    let mut n: u8 = 0;
    for i in 0..block.len() {
        n += feed(block[i]);
    }
    n
}

// Whether no bytes stand after the last line feed.
fn is_whole(table: &[u8]) -> bool
    ensures { result ≡ whole table.now }
{
    if table.len() == 0 {
        return true;
    }
    table[table.len() - 1] == LINE_FEED
}

// Rows are counted by their line feeds alone; bytes after the last one are a row more.
pub fn row_count(table: &[u8]) -> usize
    ensures { result ≡ length (lines_of table.now) }
{
    let mut n: usize = 0;
    let mut i: usize = 0;
    while BLOCK <= table.len() - i {
        let end = i + BLOCK;
        n += feeds_in(&table[i..end]) as usize;
        i = end;
    }
    n += feeds_in(&table[i..]) as usize;
    if is_whole(table) {
        return n;
    }
    n + 1
}

// The first table that is too long.
fn too_long(tables: [&[u8]; TABLES]) -> Option<TableNumber>
    ensures { result ≡ numbered (too_long (map (λ x. x.now) tables.entry)) }
{
    for t in 0..TABLES {
        let table = table_at(tables, t);
        if MOST_BYTES < table.len() {
            return Some(TableNumber(t + 1));
        }
    }
    None
}

// And the first that has too many rows.
fn too_many_rows(tables: [&[u8]; TABLES]) -> Option<TableNumber>
    ensures { result ≡ numbered (too_many_rows (map (λ x. x.now) tables.entry)) }
{
    for t in 0..TABLES {
        let n = row_count(table_at(tables, t));
        if MOST_ROWS < n {
            return Some(TableNumber(t + 1));
        }
    }
    None
}

// Refusals 1 and 2 of any call with tables.
pub fn check_sizes(tables: [&[u8]; TABLES]) -> Result<(), SizeError>
    ensures { said_sizes result ≡ sizes_of (map (λ x. x.now) tables.entry) }
{
    if let Some(table) = too_long(tables) {
        return Err(SizeError::TooLong(table));
    }
    if let Some(table) = too_many_rows(tables) {
        return Err(SizeError::TooManyRows(table));
    }
    Ok(())
}
