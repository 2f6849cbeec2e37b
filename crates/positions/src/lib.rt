// Where the number of a row went wrong: the positions beside the cells.
#![tactic(auto)]

ghost use Rattle.std.specs.Prelude.{◌≡◌, map, ◌-◌, ◌%◌, min};
ghost use Rattle.lines.specs.Lines.{line_from};
ghost use Rattle.schemas.specs.Positions.{position_in, kind_of};
ghost use Rattle.decoding.specs.Records.{column as column_of};
ghost use Rattle.positions.specs.Kept.{position_kept, PositionsBy};

use arrays::put_half;
use judged::parts::{OWN, START, TABLE};
use key_rows::{byte, half};
use lines::columns::{MOST_COLUMNS, column, part, scan};
use schemas::Table;
use schemas::positions::position_in;
use tables::{TABLES, kind_of, table_at};

// A number as it is put to a place: from 65,535 on as 65,535.
fn low_half(x: usize) -> u16
    ensures { result ≡ min x 65535 }
{
    if x < 65535 { x as u16 } else { 65535 }
}

// The column of which a verdict speaks, from 0.
fn spoken_column(verdict: u16) -> usize
    ensures { result ≡ verdict % 256 - 1 }
{
    let c = verdict % 256;
    if c == 0 {
        return 0;
    }
    (c - 1) as usize
}

// In column k of the line that starts at a place of a table.
fn position_on(kind: Table, table: &[u8], start: usize, k: usize) -> usize
    ensures { result ≡ position_in (kind_of kind k) (column_of (line_from table.now start).bytes k) }
{
    let mut ends = [0usize; MOST_COLUMNS];
    let walk = scan(table, start, true, &mut ends);
    let line = part(table, start, walk.end);
    position_in(kind, k, column(line, &ends, k))
}

// Of row i: its line is walked again only for reasons 6 and 13.
pub fn position_at(tables: [&[u8]; TABLES], halves: &[u16], bytes: &[u8], i: usize) -> u16
    ensures { result ≡ position_kept (map (λ x. x.now) tables.entry) halves.now bytes.now i }
{
    let verdict = half(halves, OWN, i);
    let reason = verdict / 256;
    match reason {
        6 | 13 => {
            let t = byte(bytes, TABLE, i) as usize;
            let start = half(halves, START, i) as usize;
            low_half(position_on(
                kind_of(t),
                table_at(tables, t),
                start,
                spoken_column(verdict),
            ))
        }
        _ => 0,
    }
}

// Of the first n rows; further places stay.
pub fn put_positions(
    tables: [&[u8]; TABLES],
    halves: &[u16],
    bytes: &[u8],
    positions: &mut [u16],
    n: usize,
)
    ensures { PositionsBy (map (λ x. x.now) tables.entry) halves.now bytes.now
        positions.old positions.new n }
{
    for i in 0..n {
        put_half(positions, i, position_at(tables, halves, bytes, i));
    }
}
