// Columns of a coefficient.
ghost use Rattle.std.specs.Prelude.{◌≡◌};
ghost use Rattle.notation.specs.Positions.{lone_minus};
ghost use Rattle.coefficients.specs.Coefficient.{coefficient_of, coefficient_reason};

use coefficients::{Coefficient, read_coefficient};
use notation::wrong::lone_minus;

// The kind of columns of a coefficient.
pub const COEFFICIENT: u8 = 255;

// Why the text of a coefficient is refused: 5, 6, 13, 7, or 0.
pub(crate) fn coefficient_reason(text: &[u8]) -> u8
    ensures { result ≡ coefficient_reason (lone_minus text.now) (coefficient_of text.now) }
{
    match read_coefficient(text) {
        Coefficient::Double(_) => 0,
        Coefficient::NotCoefficient => {
            if lone_minus(text) {
                return 6;
            }
            13
        }
        Coefficient::PowerOutOfRange => 7,
        Coefficient::TooWide => 5,
    }
}
