// The columns of the database: what is known of keys and rows, put to its places over what was kept.
#![tactic(auto)]

ghost use Rattle.std.specs.Prelude.{◌≡◌, ◌+◌, ◌≤◌, ◌<◌, min, get_or};
ghost use Rattle.arrays.specs.Room.{most_places};
ghost use Rattle.database.specs.Arrays.{number_column, table_column, all_columns};
ghost use Rattle.index_columns.specs.Columns.{put_from, following, row_number_at, index_columns};

use arrays::{PLACES, byte_at, half_at, put_half};
use database::{FIRST, HOLDER, NEXT, NUMBER, TABLE};
use symbols::SYMBOLS;

// Rows past the last place have no index.
pub fn placed(n: usize) -> usize
    ensures { result ≡ min n most_places }
{
    if n < PLACES { n } else { PLACES }
}

// The first n numbers of an array, put from a place on.
fn put_halves(from: &[u16], columns: &mut [u16], place: usize, n: usize)
    requires { place + n ≤ all_columns }
    ensures { columns.new ≡ put_from columns.old place (λ i. get_or from.now i 0) n }
{
    for i in 0..n {
        put_half(columns, place + i, half_at(from, i));
    }
}

fn wide(x: u8) -> u16
    ensures { result ≡ x }
{
    x as u16
}

// The tables of the first n rows.
fn put_tables(tables: &[u8], columns: &mut [u16], n: usize)
    requires { n ≤ most_places }
    ensures { columns.new ≡ put_from columns.old table_column (λ i. get_or tables.now i 0) n }
{
    for i in 0..n {
        put_half(columns, TABLE + i, wide(byte_at(tables, i)));
    }
}

// The number of the row after one, by the tables of both.
fn next_number(number: u16, table: u8, next: u8) -> u16
    requires { number < 65535 }
    ensures { result ≡ following number table next }
{
    if table == next { number + 1 } else { 1 }
}

// The numbers of the first n rows, each in its table.
fn put_numbers(tables: &[u8], columns: &mut [u16], n: usize)
    requires { n ≤ most_places }
    ensures { columns.new ≡ put_from columns.old number_column (row_number_at tables.now) n }
{
    let mut number: u16 = 1;
    for i in 0..n {
        put_half(columns, NUMBER + i, number);
        number = next_number(number, byte_at(tables, i), byte_at(tables, i + 1));
    }
}

// All columns but where lines start, which stay where they are. Arrays by row and by key are lent whole.
pub fn put_index(
    columns: &mut [u16],
    tables: &[u8],
    holders: &[u16; SYMBOLS],
    firsts: &[u16; SYMBOLS],
    nexts: &[u16; PLACES],
    n: usize,
)
    ensures { columns.new ≡ index_columns columns.old tables.now
        holders.now firsts.now nexts.now (min n most_places) }
{
    let rows = placed(n);
    put_halves(holders, columns, HOLDER, SYMBOLS);
    put_halves(firsts, columns, FIRST, SYMBOLS);
    put_halves(nexts, columns, NEXT, rows);
    put_numbers(tables, columns, rows);
    put_tables(tables, columns, rows);
}
