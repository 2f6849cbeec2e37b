// The cell of a row: where it stands among the cells that an import writes, and what it says.
#![tactic(auto)]

ghost use Rattle.std.specs.Prelude.{◌≡◌, map, suc, ◌≤◌, ◌<◌};
ghost use Rattle.verdicts.specs.Entries.{table_count};
ghost use Rattle.verdicts.specs.Answer.{most_cells};
ghost use Rattle.tables.specs.Sizes.{fit, sizes_of};
ghost use Rattle.verdicts.specs.Places.{rows_before};
ghost use Rattle.cells.specs.Cells.{cell_in, cell_of, cells_of, no_cells, verdict_in};

use tables::{TABLES, check_sizes, row_count, table_at};
use units::{RowNumber, TableNumber};

// Where the cells of a table's rows start, and where they end: one past the last.
#[derive(Clone, Copy)]
pub struct TableCells {
    pub start: usize,
    pub end: usize,
}

fn none() -> TableCells
    ensures { result ≡ no_cells }
{
    TableCells { start: 0, end: 0 }
}

// How many rows the first u tables have.
fn rows_before(tables: [&[u8]; TABLES], u: usize) -> usize
    requires { (sizes_of (map (λ x. x.now) tables) ≡ fit) × (u ≤ table_count) }
    ensures { (result ≡ rows_before (map (λ x. x.now) tables.entry) u) × (result ≤ most_cells) }
{
    let mut rows: usize = 0;
    for t in 0..u {
        rows += row_count(table_at(tables, t));
    }
    rows
}

// The cells of table u, from 0, of tables that are of a size to take.
fn fitting(tables: [&[u8]; TABLES], u: usize) -> TableCells
    requires { (sizes_of (map (λ x. x.now) tables) ≡ fit) × (u < table_count) }
    ensures start_value { result.start ≡ rows_before (map (λ x. x.now) tables.entry) u }
    ensures end_value { result.end ≡ rows_before (map (λ x. x.now) tables.entry) (suc u) }
{
    let start = rows_before(tables, u);
    let rows = row_count(table_at(tables, u));
    let end = start + rows;
    TableCells { start, end }
}

// The cells of a table; there are none where there is no such table, or an import refuses the tables with 1 or 2.
pub fn table_cells(tables: [&[u8]; TABLES], table: TableNumber) -> TableCells
    ensures { result ≡ cells_of (map (λ x. x.now) tables.entry) table.0 }
{
    let n = table.0;
    if n == 0 {
        return none();
    }
    if TABLES < n {
        return none();
    }
    match check_sizes(tables) {
        Ok(()) => fitting(tables, n - 1),
        Err(_) => none(),
    }
}

// The place, among all cells from 0, of a row of the table whose cells these are.
pub fn cell_in(cells: TableCells, row: RowNumber) -> Option<usize>
    ensures { result ≡ cell_in cells row.0 }
{
    let start = cells.start;
    let end = cells.end;
    let r = row.0;
    if r == 0 {
        return None;
    }
    if end <= start {
        return None;
    }
    if end - start < r {
        return None;
    }
    let at = start + (r - 1);
    Some(at)
}

// The cell of a row by the numbers of its table and its own. For many rows of a table `table_cells` is asked once.
pub fn cell_of(tables: [&[u8]; TABLES], table: TableNumber, row: RowNumber) -> Option<usize>
    ensures { result ≡ cell_of (map (λ x. x.now) tables.entry) table.0 row.0 }
{
    cell_in(table_cells(tables, table), row)
}

// The verdict that stands in a cell; 0 where there is no cell.
pub fn verdict_in(cells: &[u16], cell: Option<usize>) -> u16
    ensures { result ≡ verdict_in cells.now cell }
{
    match cell {
        Some(at) => {
            if at < cells.len() {
                return cells[at];
            }
            0
        }
        None => 0,
    }
}
