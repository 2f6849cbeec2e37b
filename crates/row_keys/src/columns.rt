// What single columns say of keys.
ghost use Rattle.std.specs.Prelude.{◌≡◌};
ghost use Rattle.verdicts.specs.Facts.{curtx_key};
ghost use Rattle.key_symbols.specs.Keyed.{symbol_of};
ghost use Rattle.row_keys.specs.Columns.{is_yes, is_engineering};

use key_symbols::{curve_key, texts_key};
use rows::letters::{Category, LimitValue, Valid};
use rows::records::OptionalCurve;
use symbols::Symbol;

pub fn is_yes(valid: Valid) -> bool
    ensures { result ≡ is_yes valid }
{
    match valid {
        Valid::Yes => true,
        Valid::No => false,
    }
}

pub fn is_engineering(inter: LimitValue) -> bool
    ensures { result ≡ is_engineering inter }
{
    match inter {
        LimitValue::Raw => false,
        LimitValue::Engineering => true,
    }
}

pub fn curtx_key(categ: Category, curtx: OptionalCurve) -> Symbol
    ensures { result ≡ symbol_of (curtx_key categ curtx) }
{
    match categ {
        Category::Numeric => curve_key(curtx.name),
        Category::Status => texts_key(curtx.name),
        Category::Text => curve_key(curtx.name),
    }
}
