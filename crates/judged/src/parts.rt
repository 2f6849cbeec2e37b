// The columns of what is kept of the rows, each a part of one array.
ghost use Rattle.std.specs.Prelude.{◌≡◌, min};
ghost use Rattle.judged.specs.Passes.{column_of};

use arrays::PLACES;

pub const OWN: u8 = 0;

pub const KEY1: u8 = 1;

pub const KEY2: u8 = 2;

pub const NAME1: u8 = 3;

pub const NAME2: u8 = 4;

pub const GROUP: u8 = 5;

pub const NUMBER: u8 = 6;

pub const START: u8 = 7;

pub const CODE1: u8 = 0;

pub const CODE2: u8 = 1;

pub const MARKS: u8 = 2;

pub const COUNT: u8 = 3;

pub const TABLE: u8 = 4;

fn least(a: usize, b: usize) -> usize
    ensures { result ≡ min a b }
{
    if a < b { a } else { b }
}

// Column c of numbers below 65,536; what of it is past the end is left out.
pub fn half_column(halves: &[u16], c: u8) -> &[u16]
    ensures { result.now ≡ column_of halves.now c }
{
    let from = least(c as usize * PLACES, halves.len());
    let to = least(from + PLACES, halves.len());
    &halves[from..to]
}

// And of numbers below 256.
pub fn byte_column(bytes: &[u8], c: u8) -> &[u8]
    ensures { result.now ≡ column_of bytes.now c }
{
    let from = least(c as usize * PLACES, bytes.len());
    let to = least(from + PLACES, bytes.len());
    &bytes[from..to]
}
