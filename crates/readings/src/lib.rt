// Readings: a raw value in a packet, and whether it is valid; validity along rows of a VALID chain that have been read.
#![tactic(auto)]

mod along;

ghost use Rattle.std.specs.Prelude.{◌≡◌, min};
ghost use Rattle.outcomes.specs.Values.{value_of};
ghost use Rattle.readings.specs.Readings as spec;
ghost use Rattle.readings.specs.Chain.{block_rows, valid_along};

use crate::along::valid_along;
use outcomes::Value;

// A VALID chain is read in blocks of at most so many rows: most chains are short, and small arrays are soon cleared.
pub const BLOCK_ROWS: usize = 16;

// A raw value and whether it is valid.
#[derive(Clone, Copy)]
pub struct Reading {
    pub value: Value,
    pub valid: bool,
}

// A string and a real equal no number.
pub fn equals(value: Value, valpar: i64) -> bool
    ensures { result ≡ spec.equals (value_of value) valpar }
{
    match value {
        Value::Number(v) => v == valpar,
        Value::Part(from, bytes) => false,
        Value::Bits(pattern, width) => false,
    }
}

// Whether readings of the first row of a block are valid, by the n rows of it that were read.
pub fn valid_chain(
    values: &[i64; BLOCK_ROWS],
    valpars: &[i64; BLOCK_ROWS],
    free: bool,
    n: usize,
) -> bool
    ensures { result ≡ valid_along values.now valpars.now free 0 (min n block_rows) }
{
    if n < BLOCK_ROWS {
        return valid_along(values, valpars, free, 0, n);
    }
    valid_along(values, valpars, free, 0, BLOCK_ROWS)
}
