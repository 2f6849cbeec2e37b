// Why a column by itself is refused: reasons 4 to 7.
ghost use Rattle.std.specs.Prelude.{◌≡◌};
ghost use Rattle.column_checks.specs.ColumnReasons.{kind_reason, column_reason};
ghost use Rattle.column_checks.specs.ColumnKinds.{kind_at, column_from};

use crate::coefficient::{COEFFICIENT, coefficient_reason};
use crate::letters::letter_reason;
use crate::ranges::number_reason;

// The kind of a column of any text; the numbers' kinds follow it, from FIRST_LETTERS on the letters',
// and COEFFICIENT is the last.
pub const TEXT: u8 = 0;

pub const FIRST_LETTERS: u8 = 128;

// The reason of a text that is neither empty nor too wide.
fn kind_reason(text: &[u8], kind: u8) -> u8
    ensures { result ≡ kind_reason (kind_at kind) text.now }
{
    if kind == TEXT {
        return 0;
    }
    if kind == COEFFICIENT {
        return coefficient_reason(text);
    }
    if kind < FIRST_LETTERS {
        return number_reason(text, kind);
    }
    letter_reason(text, kind)
}

// The reason of a column with a width, a mark, 1 where it is mandatory, and a kind.
pub fn column_reason(text: &[u8], width: u8, mark: u8, kind: u8) -> u8
    ensures { result ≡ column_reason (column_from width mark kind) text.now }
{
    if text.len() == 0 {
        if mark == 1 {
            return 4;
        }
        return 0;
    }
    if (width as usize) < text.len() {
        return 5;
    }
    kind_reason(text, kind)
}
