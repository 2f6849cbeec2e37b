// Rows that hold a key, and sound rows of a group.
#![tactic(auto)]

ghost use Rattle.std.specs.Prelude.{◌≡◌};
ghost use Rattle.key_rows.specs.KeyRows.{in_column, has_key, shares_by, sound_by, counted_by};

use arrays::{byte_at, half_at};
use judged::parts::{COUNT, GROUP, KEY1, KEY2, OWN, byte_column, half_column};
use symbols::NO_ID;

// The cell of a row that shares a key.
const SHARED: u16 = 9 * 256;

// What a column of numbers below 65,536 has of row i.
pub fn half(halves: &[u16], column: u8, i: usize) -> u16
    ensures { result ≡ in_column halves.now column i }
{
    half_at(half_column(halves, column), i)
}

// And one of numbers below 256.
pub fn byte(bytes: &[u8], column: u8, i: usize) -> u8
    ensures { result ≡ in_column bytes.now column i }
{
    byte_at(byte_column(bytes, column), i)
}

// Whether row j holds the key with this id.
pub fn has_key(halves: &[u16], id: u16, j: usize) -> bool
    ensures { result ≡ has_key halves.now id j }
{
    if id == NO_ID {
        return false;
    }
    if half(halves, KEY1, j) == id {
        return true;
    }
    half(halves, KEY2, j) == id
}

// Whether row j is another one than i, and holds one of its keys.
pub fn shares(halves: &[u16], i: usize, j: usize) -> bool
    ensures { result ≡ shares_by halves.now i j }
{
    if i == j {
        return false;
    }
    if has_key(halves, half(halves, KEY1, i), j) {
        return true;
    }
    has_key(halves, half(halves, KEY2, i), j)
}

// Whether row j has none of reasons 1 to 9.
pub fn is_sound(halves: &[u16], cells: &[u16], j: usize) -> bool
    ensures { result ≡ sound_by halves.now cells.now j }
{
    if half(halves, OWN, j) == 0 {
        return half_at(cells, j) != SHARED;
    }
    false
}

// Whether row i counts rows, and row j is one of them.
pub fn is_counted(halves: &[u16], bytes: &[u8], cells: &[u16], i: usize, j: usize) -> bool
    ensures { result ≡ counted_by halves.now bytes.now cells.now i j }
{
    if byte(bytes, COUNT, i) == 0 {
        return false;
    }
    if half(halves, GROUP, j) == half(halves, KEY1, i) {
        return is_sound(halves, cells, j);
    }
    false
}
