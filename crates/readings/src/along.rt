// Validity along rows of a VALID chain that have been read: validity asks for a reading,
// and the reading asks for validity.
ghost use Rattle.std.specs.Prelude.{◌≡◌, ◌+◌, ◌≤◌, ◌<◌, pos, get_or};
ghost use Rattle.outcomes.specs.Outcome.{and_then};
ghost use Rattle.outcomes.specs.Values.{number};
ghost use Rattle.readings.specs.Readings as spec;
ghost use Rattle.readings.specs.Readings.{said_reading, with_validity};
ghost use Rattle.readings.specs.Chain.{valid_along};

use crate::{BLOCK_ROWS, Reading, equals};
use outcomes::{Refusal, Value};

// Whether a reading is valid and equals a VALPAR.
fn agrees(reading: Result<Reading, Refusal>, valpar: i64) -> bool
    ensures { result ≡ spec.agrees (said_reading reading) valpar }
{
    match reading {
        Ok(read) => {
            if read.valid {
                return equals(read.value, valpar);
            }
            false
        }
        Err(refusal) => false,
    }
}

// The reading of the validity parameter of row `at`, by the `left` rows of the block that are left.
#[cycle(read_along_valid_along)]
fn read_along(
    values: &[i64; BLOCK_ROWS],
    valpars: &[i64; BLOCK_ROWS],
    free: bool,
    at: usize,
    left: usize,
) -> Result<Reading, Refusal>
    requires { at + left < 16 }
    ensures { said_reading result ≡ with_validity (valid_along values.now valpars.now free (at + 1) left)
        (number (get_or values.now at (pos 0))) }
{
    let value = Value::Number(values[at]);
    let valid = valid_along(values, valpars, free, at + 1, left);
    Ok(Reading { value, valid })
}

// Whether readings of row `at` are valid, by the `left` rows of the block that are left.
#[cycle(read_along_valid_along)]
pub(crate) fn valid_along(
    values: &[i64; BLOCK_ROWS],
    valpars: &[i64; BLOCK_ROWS],
    free: bool,
    at: usize,
    left: usize,
) -> bool
    requires { at + left ≤ 16 }
    ensures { result ≡ valid_along values.now valpars.now free at left }
{
    if left == 0 {
        return free;
    }
    let valpar = valpars[at];
    agrees(read_along(values, valpars, free, at, left - 1), valpar)
}
