// Rows that hold a key which a row names.
#![tactic(auto)]

ghost use Rattle.std.specs.Prelude.{◌≡◌, ◌&&◌};
ghost use Rattle.key_rows.specs.KeyRows.{has_key};
ghost use Rattle.named_rows.specs.NamedRows.{stands_at, named_by, named_at_by, follower_by};

use judged::parts::{CODE1, CODE2, NAME1, NAME2};
use key_rows::{byte, half, has_key, is_sound};
use manners::{naming_chained, naming_column};

// Whether a key is asked about, and row j holds it.
fn holds_asked(halves: &[u16], asked: bool, id: u16, j: usize) -> bool
    ensures { result ≡ (asked && has_key halves.now id j) }
{
    if asked {
        return has_key(halves, id, j);
    }
    false
}

// Whether row i names row j by its first naming, where that is asked about, or by its second.
fn names(halves: &[u16], i: usize, one: bool, two: bool, j: usize) -> bool
    ensures { result ≡ named_by halves.now i one two j }
{
    if holds_asked(halves, one, half(halves, NAME1, i), j) {
        return true;
    }
    holds_asked(halves, two, half(halves, NAME2, i), j)
}

fn stands_at(bytes: &[u8], codes: u8, column: u16, i: usize) -> bool
    ensures { result ≡ stands_at bytes.now codes column i }
{
    naming_column(byte(bytes, codes, i)) as u16 == column
}

// Whether row i names row j at this column.
pub fn names_at(halves: &[u16], bytes: &[u8], column: u16, i: usize, j: usize) -> bool
    ensures { result ≡ named_at_by halves.now bytes.now column i j }
{
    let one = stands_at(bytes, CODE1, column, i);
    let two = stands_at(bytes, CODE2, column, i);
    names(halves, i, one, two, j)
}

// Whether row j is the next row of the VALID chain after row i.
pub fn follows(halves: &[u16], bytes: &[u8], cells: &[u16], i: usize, j: usize) -> bool
    ensures { result ≡ follower_by halves.now bytes.now cells.now i j }
{
    let one = naming_chained(byte(bytes, CODE1, i));
    let two = naming_chained(byte(bytes, CODE2, i));
    if names(halves, i, one, two, j) {
        return is_sound(halves, cells, j);
    }
    false
}
