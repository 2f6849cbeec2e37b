// The points of a curve, by its rows in caf and cap.
#![tactic(auto)]

ghost use Rattle.std.specs.Prelude.{◌≡◌, map, ◌≤◌, length};
ghost use Rattle.std.proofs.lemmas.List.Edits.{sets};
ghost use Rattle.verdicts.specs.Key as key;
ghost use Rattle.database.specs.Arrays.{database, row_at, answers};
ghost use Rattle.curve_points.specs.Curves.{curve_ends, xvals_of, yvals_of};
ghost use Rattle.curve_points.specs.Points.{points_of};

use database::{MOST_MEMBERS, holder_of, is_polynomial, list_members};
use found_rows::{caf_at, cap_at};
use key_symbols::curve_key;
use name_bytes::CurveName;
use rows::letters::OffEnds;
use tables::TABLES;

// A curve whose points are the first of two lent arrays, X and Y. Without ends there is no such curve.
#[derive(Clone, Copy)]
pub struct Points {
    pub ends: Option<OffEnds>,
    pub count: usize,
}

// What a curve does off its ends, by the row of this name in caf. A polynomial of this name has none.
pub fn curve_ends(
    tables: [&[u8]; TABLES],
    words: &[u64],
    links: &[u16],
    columns: &[u16],
    name: CurveName,
) -> Option<OffEnds>
    ensures { result ≡ curve_ends ((answers (database (map (λ x. x.now) tables.entry) words.now links.now columns.now)
        ).holder (key.curve name)) }
{
    let at = holder_of(words, links, columns, curve_key(name));
    if at == 0 {
        return None;
    }
    if is_polynomial(columns, at - 1) {
        return None;
    }
    let row = caf_at(tables, columns, at - 1);
    Some(row.inter)
}

// XVALS and YVALS of the rows at these places.
fn fill_points(
    tables: [&[u8]; TABLES],
    columns: &[u16],
    places: &[usize],
    xs: &mut [i64; MOST_MEMBERS],
    ys: &mut [i64; MOST_MEMBERS],
)
    requires { length places.now ≤ 1024 }
    ensures xs_after { xs.new ≡ sets xs.old 0
        (map (λ i. xvals_of (row_at (map (λ x. x.now) tables.entry) columns.now i)) places.now) }
    ensures ys_after { ys.new ≡ sets ys.old 0
        (map (λ i. yvals_of (row_at (map (λ x. x.now) tables.entry) columns.now i)) places.now) }
{
    for i in 0..places.len() {
        let place = places[i];
        let row = cap_at(tables, columns, place);
        let x = row.xvals;
        let y = row.yvals;
        xs[i] = x;
        ys[i] = y;
    }
}

// The curve of this name. Its points are the first of the arrays; what stands behind them stays.
pub fn gather_points(
    tables: [&[u8]; TABLES],
    words: &[u64],
    links: &[u16],
    columns: &[u16],
    name: CurveName,
    xs: &mut [i64; MOST_MEMBERS],
    ys: &mut [i64; MOST_MEMBERS],
) -> Points
    ensures value { result ≡ points_of (answers (database (map (λ x. x.now) tables.entry) words.now links.now columns.now)) name }
    ensures xs_after { xs.new ≡ sets xs.old 0
        (map xvals_of ((answers (database (map (λ x. x.now) tables.entry) words.now links.now columns.now)
        ).members (key.curve name))) }
    ensures ys_after { ys.new ≡ sets ys.old 0
        (map yvals_of ((answers (database (map (λ x. x.now) tables.entry) words.now links.now columns.now)
        ).members (key.curve name))) }
{
    let mut places = [0usize; MOST_MEMBERS];
    let count = list_members(words, links, columns, curve_key(name), &mut places);
    fill_points(tables, columns, &places[..count], xs, ys);
    let ends = curve_ends(tables, words, links, columns, name);
    Points { ends, count }
}
