// The polynomial that a parameter's CURTX names.
#![tactic(auto)]

ghost use Rattle.std.specs.Prelude.{◌≡◌, map};
ghost use Rattle.verdicts.specs.Key as key;
ghost use Rattle.database.specs.Arrays.{database, answers};
ghost use Rattle.polynomial_curves.specs.Polynomials.{polynomial_in, polynomial_for};

use database::{holder_of, is_polynomial};
use found_rows::mcf_at;
use key_symbols::curve_key;
use name_bytes::CurveName;
use polynomials::Polynomial;
use rows::records::OptionalCurve;
use tables::TABLES;

// By the row of this name. There is none without such a row, or where it is a row of caf.
fn polynomial_of(
    tables: [&[u8]; TABLES],
    words: &[u64],
    links: &[u16],
    columns: &[u16],
    name: CurveName,
) -> Option<Polynomial>
    ensures { result ≡ polynomial_in ((answers (database (map (λ x. x.now) tables.entry) words.now links.now columns.now)
        ).holder (key.curve name)) }
{
    let at = holder_of(words, links, columns, curve_key(name));
    if at == 0 {
        return None;
    }
    if !is_polynomial(columns, at - 1) {
        return None;
    }
    let row = mcf_at(tables, columns, at - 1);
    Some(row.polynomial)
}

// By CURTX, where it is given.
pub fn find_polynomial(
    tables: [&[u8]; TABLES],
    words: &[u64],
    links: &[u16],
    columns: &[u16],
    curtx: OptionalCurve,
) -> Option<Polynomial>
    ensures { result ≡ polynomial_for (answers (database (map (λ x. x.now) tables.entry) words.now links.now columns.now))
        curtx }
{
    if !curtx.given {
        return None;
    }
    let name = curtx.name;
    polynomial_of(tables, words, links, columns, name)
}
