// Where the number of a column went wrong.
ghost use Rattle.std.specs.Prelude.{◌≡◌};
ghost use Rattle.column_checks.specs.ColumnKinds.{kind_at};
ghost use Rattle.schemas.specs.Positions.{position_in, kind_of};

use crate::Table;
use crate::coded::column_code;
use column_checks::coefficient::COEFFICIENT;
use column_checks::column::{FIRST_LETTERS, TEXT};
use notation::wrong::wrong_in_coefficient;
use number_positions::wrong_in_number;

// In a text, by the kind of its column.
fn kind_position(text: &[u8], kind: u8) -> usize
    ensures { result ≡ position_in (kind_at kind) text.now }
{
    if kind == TEXT {
        return 0;
    }
    if kind == COEFFICIENT {
        return wrong_in_coefficient(text);
    }
    if kind < FIRST_LETTERS {
        return wrong_in_number(text);
    }
    0
}

// In the text of column k of a table, from 0.
pub fn position_in(table: Table, k: usize, text: &[u8]) -> usize
    ensures { result ≡ position_in (kind_of table k) text.now }
{
    let code = column_code(table, k);
    kind_position(text, code.kind)
}
