// Columns of a number in a range.
ghost use Rattle.std.specs.Prelude.{◌≡◌, ◌≤◌, ◌<◌, ◌^◌, pos, nat_abs, get_or};
ghost use Rattle.numbers.specs.Number.{number_of};
ghost use Rattle.number_positions.specs.Positions.{no_digits};
ghost use Rattle.column_checks.specs.ColumnReasons.{number_reason};
ghost use Rattle.column_checks.specs.ColumnKinds.{lowests, highests};

use number_positions::no_digits;
use numbers::{NumberError, read_number};

// The kinds of columns of a number, by their range: from 1 on, and below the letters' first.
pub const TO_255: u8 = 1;

pub const TO_65535: u8 = 2;

pub const TO_2147483647: u8 = 3;

pub const SPID: u8 = 4;

pub const OFFSET_OR_UNUSED: u8 = 5;

pub const TO_32: u8 = 6;

pub const TO_8191: u8 = 7;

pub const TO_7: u8 = 8;

pub const FROM_1_TO_9999: u8 = 9;

pub const TO_32767: u8 = 10;

pub const TO_99: u8 = 11;

pub const VALIDITY_VALUE: u8 = 12;

pub const FROM_2_TO_100: u8 = 13;

pub const COORDINATE: u8 = 14;

pub const FROM_1_TO_999: u8 = 15;

pub const RAW_VALUE: u8 = 16;

pub const FROM_1_TO_99: u8 = 17;

pub const FROM_1_TO_16: u8 = 18;

// Why a column of a number from `lowest` to `highest` is refused: 6, 13, 7, or 0.
fn range_reason(text: &[u8], lowest: i64, highest: i64) -> u8
    requires { (nat_abs lowest < 2 ^ 60) × (nat_abs highest < 2 ^ 60) }
    ensures { result ≡ number_reason lowest highest (no_digits text.now) (number_of text.now) }
{
    match read_number(text) {
        Ok(v) => {
            if lowest <= v {
                if v <= highest {
                    return 0;
                }
                return 7;
            }
            7
        }
        Err(NumberError::NotNumber) => {
            if no_digits(text) {
                return 6;
            }
            13
        }
        Err(NumberError::Beyond) => 7,
    }
}

// The same by the kind of the column. Each range stands in the code:
// an array of them would be made anew for each number.
pub(crate) fn number_reason(text: &[u8], kind: u8) -> u8
    requires { 1 ≤ kind }
    ensures { result ≡ number_reason (get_or lowests kind (pos 0)) (get_or highests kind (pos 0)) (no_digits text.now)
        (number_of text.now) }
{
    match kind {
        TO_255 => range_reason(text, 0, 255),
        TO_65535 => range_reason(text, 0, 65535),
        TO_2147483647 => range_reason(text, 0, 2147483647),
        SPID => range_reason(text, 1, 4294967295),
        OFFSET_OR_UNUSED => range_reason(text, -1, 8191),
        TO_32 => range_reason(text, 0, 32),
        TO_8191 => range_reason(text, 0, 8191),
        TO_7 => range_reason(text, 0, 7),
        FROM_1_TO_9999 => range_reason(text, 1, 9999),
        TO_32767 => range_reason(text, 0, 32767),
        TO_99 => range_reason(text, 0, 99),
        VALIDITY_VALUE => range_reason(text, -9999, 65535),
        FROM_2_TO_100 => range_reason(text, 2, 100),
        COORDINATE => range_reason(text, -1073741824, 1073741823),
        FROM_1_TO_999 => range_reason(text, 1, 999),
        RAW_VALUE => range_reason(text, -2147483648, 4294967295),
        FROM_1_TO_99 => range_reason(text, 1, 99),
        FROM_1_TO_16 => range_reason(text, 1, 16),
        _ => range_reason(text, 0, 0),
    }
}
