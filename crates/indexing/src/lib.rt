// An index over what is kept of the rows: which good row holds a key, and the good rows of a group,
// one after the other.
#![tactic(auto)]

ghost use Rattle.std.specs.Prelude.{min};
ghost use Rattle.arrays.specs.Room.{most_places};
ghost use Rattle.kept.specs.Stored.{group_column};
ghost use Rattle.passes.specs.Groups.{Chained};
ghost use Rattle.judged.specs.Passes.{column_of};
ghost use Rattle.indexing.specs.Indexing.{IndexedBy};

use arrays::PLACES;
use findings::mark_formed;
use index_columns::{placed, put_index};
use judged::note_holders;
use judged::parts::{GROUP, TABLE, byte_column, half_column};
use passes::groups::chain_rows;
use symbols::SYMBOLS;

// The marked rows of each group, one after the other.
fn group_rows(
    columns: &[u16],
    marks: &[u8; PLACES],
    firsts: &mut [u16; SYMBOLS],
    nexts: &mut [u16; PLACES],
    n: usize,
)
    ensures { Chained marks.now (column_of columns.now group_column) firsts.old nexts.old
        firsts.new nexts.new 0 (min n 65535) }
{
    chain_rows(marks, half_column(columns, GROUP), firsts, nexts, n);
}

// Puts the columns of the database over those of what is kept of n rows, by the cells of their verdicts.
pub fn index_rows(columns: &mut [u16], bytes: &[u8], cells: &[u16], n: usize)
    ensures { IndexedBy columns.old bytes.now cells.now columns.new (min n most_places) }
{
    let rows = placed(n);
    let mut marks = [0u8; PLACES];
    let mut holders = [0u16; SYMBOLS];
    let mut firsts = [0u16; SYMBOLS];
    let mut nexts = [0u16; PLACES];
    mark_formed(cells, &mut marks, rows);
    note_holders(&marks, columns, &mut holders, rows);
    group_rows(columns, &marks, &mut firsts, &mut nexts, rows);
    put_index(
        columns,
        byte_column(bytes, TABLE),
        &holders,
        &firsts,
        &nexts,
        rows,
    );
}
