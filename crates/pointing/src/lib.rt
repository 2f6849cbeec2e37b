// Which rows a row's verdict points to, by what is kept of the rows and the cells of their verdicts.
#![tactic(auto)]

ghost use Rattle.std.specs.Prelude.{◌≡◌, ◌-◌, length};
ghost use Rattle.laws.specs.Prefix.{all_from};
ghost use Rattle.pointing.specs.Pointing.{points_to, first_of};

use arrays::half_at;
use key_rows::{is_counted, shares};
use named_rows::{follows, names_at};

// Whether the verdict in the cell of row i speaks of row j.
pub fn points_to(halves: &[u16], bytes: &[u8], cells: &[u16], i: usize, j: usize) -> bool
    ensures { result ≡ points_to halves.now bytes.now cells.now i j }
{
    let verdict = half_at(cells, i);
    let reason = verdict / 256;
    if reason == 9 {
        return shares(halves, i, j);
    }
    if reason == 10 {
        return is_counted(halves, bytes, cells, i, j);
    }
    if reason == 11 {
        return names_at(halves, bytes, verdict % 256, i, j);
    }
    if reason == 12 {
        return follows(halves, bytes, cells, i, j);
    }
    false
}

// The first row of n, from a place on, that the verdict of row i speaks of.
// Rows go by their place among all rows, from 0.
pub fn next_cause(
    halves: &[u16],
    bytes: &[u8],
    cells: &[u16],
    n: usize,
    i: usize,
    from: usize,
) -> Option<usize>
    ensures { result ≡ first_of (all_from (points_to halves.now bytes.now cells.now i) from (n - from)) }
{
    for j in from..n {
        if points_to(halves, bytes, cells, i, j) {
            return Some(j);
        }
    }
    None
}

// How many of n rows the verdict of row i speaks of.
pub fn count_causes(halves: &[u16], bytes: &[u8], cells: &[u16], n: usize, i: usize) -> usize
    ensures { result ≡ length (all_from (points_to halves.now bytes.now cells.now i) 0 n) }
{
    let mut count: usize = 0;
    let mut j: usize = 0;
    while j < n {
        if points_to(halves, bytes, cells, i, j) {
            count += 1;
            j += 1;
        } else {
            j += 1;
        }
    }
    count
}
