// The database: tables in lent arrays, in which a row is found by its key, and rows are followed by their group.
#![tactic(auto)]

ghost use Rattle.std.specs.Prelude.{◌≡◌, map, [], ◌+◌, ◌≤◌, ◌<◌, length, get_or, drop};
ghost use Rattle.std.proofs.lemmas.List.Edits.{sets};
ghost use Rattle.verdicts.specs.Places.{text_at};
ghost use Rattle.database.specs.Kinds.{is_polynomial};
ghost use Rattle.database.specs.Arrays.{row_at, keyed, group_places, holder_column, first_column, next_column, all_columns};

use arrays::{PLACES, half_at};
use symbols::{SYMBOLS, Symbol, find};
use tables::{MOST_ROWS, TABLES, table_at};
use units::RowNumber;

// A group has at most so many rows, as a table has.
pub const MOST_MEMBERS: usize = MOST_ROWS;

// A column of keys has a place for each symbol, and a column of rows one for each row.
// Where the columns of keys start: one more than the good row that holds a key,
// and than the first of the group that goes by it.
pub const HOLDER: usize = 0;

pub const FIRST: usize = HOLDER + SYMBOLS;

// And those of rows: one more than the next row of the group, the row's number, its table, and where its line starts.
pub const NEXT: usize = FIRST + SYMBOLS;

pub const NUMBER: usize = NEXT + PLACES;

pub const TABLE: usize = NUMBER + PLACES;

pub const START: usize = TABLE + PLACES;

// All columns.
pub const COLUMNS: usize = START + PLACES;

fn wide(x: u16) -> usize
    ensures { (result ≡ x) × (result < 65536) }
{
    x as usize
}

// What a column has at place i.
fn column_at(columns: &[u16], column: usize, i: usize) -> usize
    requires { column < all_columns }
    ensures { (result ≡ get_or columns.now (column + i) 0) × (result < 65536) }
{
    if columns.len() <= i {
        return 0;
    }
    wide(half_at(columns, column + i))
}

// What a column of keys says of a key; 0 of one that isn't there.
fn keyed_at(words: &[u64], links: &[u16], columns: &[u16], column: usize, key: Symbol) -> usize
    requires { column < all_columns }
    ensures { (result ≡ keyed words.now links.now columns.now column key) × (result < 65536) }
{
    let id = wide(find(words, links, key));
    if id < SYMBOLS {
        return column_at(columns, column, id);
    }
    0
}

// One more than the place of the good row that holds a key, 0 where none does.
pub fn holder_of(words: &[u64], links: &[u16], columns: &[u16], key: Symbol) -> usize
    ensures { (result ≡ keyed words.now links.now columns.now holder_column key) × (result < 65536) }
{
    keyed_at(words, links, columns, HOLDER, key)
}

// The number of row i, from 0, in its table.
pub fn number_of(columns: &[u16], i: usize) -> RowNumber
    ensures { result.0 ≡ (row_at [] columns.now i).number }
{
    RowNumber(column_at(columns, NUMBER, i))
}

// The table of polynomials, by its number from 0.
const POLYNOMIALS: usize = 10;

// Whether it is a polynomial.
pub fn is_polynomial(columns: &[u16], i: usize) -> bool
    ensures { result ≡ is_polynomial (row_at [] columns.now i) }
{
    column_at(columns, TABLE, i) == POLYNOMIALS
}

// The bytes of its table.
pub fn table_of<'a>(tables: [&'a [u8]; TABLES], columns: &[u16], i: usize) -> &'a [u8]
    ensures { result.now ≡ text_at (map (λ x. x.now) tables.entry) (row_at [] columns.now i).table }
{
    table_at(tables, column_at(columns, TABLE, i))
}

// Where its line starts in its table.
pub fn start_of(columns: &[u16], i: usize) -> usize
    ensures { (result ≡ (row_at [] columns.now i).start) × (result < 65536) }
{
    column_at(columns, START, i)
}

// Lists the places of the rows of a group, in their order; how many these are. Further places stay.
pub fn list_members(
    words: &[u64],
    links: &[u16],
    columns: &[u16],
    group: Symbol,
    places: &mut [usize; MOST_MEMBERS],
) -> usize
    ensures value { result ≡ length (group_places columns.now
        (keyed words.now links.now columns.now first_column group)) }
    ensures places_after { places.new ≡ sets places.old 0
        (group_places columns.now (keyed words.now links.now columns.now first_column group)) }
    ensures upper_bound { result ≤ 1024 }
{
    let mut at = keyed_at(words, links, columns, FIRST, group);
    let mut n: usize = 0;
    while n < MOST_MEMBERS {
        if at == 0 {
            return n;
        }
        let i = at - 1;
        places[n] = i;
        at = column_at(columns, NEXT, i);
        n += 1;
    }
    n
}
