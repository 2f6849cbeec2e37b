// Rows by their place among all rows, from 0.
use cells::table_cells;
use row_places::{row_number, table_of};
use table_names::table_name;
use tables::TABLES;
use words::say;
use words::say::words;

// "pcf 12"
pub(crate) fn say_place(rt: &impl Print, tables: [&[u8]; TABLES], bytes: &[u8], i: usize) {
    let table = table_of(bytes, i);
    say::name(rt, table_name(table));
    words(rt, b" ");
    say::number(rt, row_number(table_cells(tables, table), i).0);
}
