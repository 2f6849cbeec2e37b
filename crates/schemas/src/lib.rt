// The columns of the tables, and reasons 1 to 7 of a row's verdict.
#![tactic(auto)]

pub mod by_table;
pub mod coded;
pub mod positions;
mod tables;

ghost use Rattle.std.specs.Prelude.{◌≡◌, length};
ghost use Rattle.lines.specs.Columns.{column_in};
ghost use Rattle.schemas.specs.Reasons.{reason_at, reason_from, shape_by};
ghost use Rattle.schemas.specs.Constants.{Alike, schema_from};

use column_checks::column::column_reason;
use lines::columns::{Scanned, column};

// The tables that the rack carries, in their order.
#[derive(Clone, Copy)]
pub enum Table {
    Pid,
    Pic,
    Plf,
    Pcf,
    Caf,
    Cap,
    Txf,
    Txp,
    Ocf,
    Ocp,
    Mcf,
}

// A row has at most so many bytes before its line feed.
const LONGEST_ROW: usize = 512;

// Reason and column in one number.
pub fn verdict_of(reason: u8, column: u8) -> u16
    ensures { result ≡ reason_at reason column }
{
    (reason as u16) * 256 + (column as u16)
}

// The first reason of the columns, with its column, or 0.
fn columns_verdict(line: &[u8], ends: &[usize], widths: &[u8], marks: &[u8], kinds: &[u8]) -> u16
    requires { Alike widths.now marks.now kinds.now }
    ensures { result ≡ reason_from 0 (schema_from widths.now marks.now kinds.now)
        (column_in line.now ends.now) }
{
    for k in 0..widths.len() {
        let reason = column_reason(column(line, ends, k), widths[k], marks[k], kinds[k]);
        if reason != 0 {
            return verdict_of(reason, (k as u8) + 1);
        }
    }
    0
}

// The reasons of a row of a table with these columns in their order, after a walk over it.
pub(crate) fn check_row(
    line: &[u8],
    walk: Scanned,
    ends: &[usize],
    widths: &[u8],
    marks: &[u8],
    kinds: &[u8],
) -> u16
    requires { Alike widths.now marks.now kinds.now }
    ensures { result ≡ shape_by (schema_from widths.now marks.now kinds.now) walk (length line.now)
        (column_in line.now ends.now) }
{
    if walk.ended {
        if LONGEST_ROW < line.len() {
            return verdict_of(1, 0);
        }
        if walk.foreign {
            return verdict_of(2, 0);
        }
        if walk.count == widths.len() {
            return columns_verdict(line, ends, widths, marks, kinds);
        }
        return verdict_of(3, 0);
    }
    verdict_of(1, 0)
}
