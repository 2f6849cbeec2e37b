// Where a row stands that goes by its place among all rows, from 0: its table, and its number there.
#![tactic(auto)]

ghost use Rattle.std.specs.Prelude.{◌≡◌};
ghost use Rattle.row_places.specs.Places.{table_number, row_number};

use cells::TableCells;
use judged::parts::TABLE;
use key_rows::byte;
use units::{RowNumber, TableNumber};

// The table of row i.
pub fn table_of(bytes: &[u8], i: usize) -> TableNumber
    ensures { result.0 ≡ table_number bytes.now i }
{
    TableNumber(byte(bytes, TABLE, i) as usize + 1)
}

// Its number in the table whose cells these are; 0 where it is in another.
pub fn row_number(cells: TableCells, i: usize) -> RowNumber
    ensures { result.0 ≡ row_number cells i }
{
    let start = cells.start;
    if i < start {
        return RowNumber(0);
    }
    if cells.end <= i {
        return RowNumber(0);
    }
    RowNumber(i - start + 1)
}
