// A row that isn't good, in a line.
use crate::leans::say_leans;
use crate::places::say_place;
use arrays::half_at;
use judged::parts::TABLE;
use key_rows::byte;
use schemas::Table;
use table_names::column_name;
use tables::{TABLES, kind_of};
use words::say;
use words::say::words;

fn say_column(rt: &impl Print, kind: Table, column: usize) {
    if column == 0 {
        words(rt, b"the whole row");
    } else {
        say::name(rt, column_name(kind, column));
    }
}

// The column of a verdict: "8 (VALID)"
fn say_at(rt: &impl Print, bytes: &[u8], i: usize, column: usize) {
    say::number(rt, column);
    words(rt, b" (");
    say_column(rt, kind_of(byte(bytes, TABLE, i) as usize), column);
    words(rt, b")");
}

// "pcf 12: 2824: reason 11 at column 8 (VALID): "T5": no well-formed row has this name"
pub fn say_row(
    rt: &impl Print,
    tables: [&[u8]; TABLES],
    halves: &[u16],
    bytes: &[u8],
    cells: &[u16],
    n: usize,
    i: usize,
) {
    let verdict = half_at(cells, i) as usize;
    let reason = verdict / 256;
    say_place(rt, tables, bytes, i);
    words(rt, b": ");
    say::number(rt, verdict);
    words(rt, b": reason ");
    say::number(rt, reason);
    words(rt, b" at column ");
    say_at(rt, bytes, i, verdict % 256);
    words(rt, b": ");
    say_leans(rt, tables, halves, bytes, cells, n, i);
    words(rt, b"\n");
}
