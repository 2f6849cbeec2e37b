// How an engineering value comes from the raw one, where it is a number.
ghost use Rattle.std.specs.Prelude.{◌≡◌, map};
ghost use Rattle.std.proofs.lemmas.List.Edits.{sets};
ghost use Rattle.database.specs.Arrays.{database, answers};
ghost use Rattle.curve_points.specs.Curves.{xvals_of, yvals_of};
ghost use Rattle.outcomes.specs.Refusals.{said};
ghost use Rattle.curve_values.specs.Scale.{scale_of, point_rows, on_scale, scale_in, scale_by};

use crate::along::value_along;
use curve_points::{Points, gather_points};
use database::MOST_MEMBERS;
use outcomes::Refusal;
use rows::records::OptionalCurve;
use tables::TABLES;

// As it was read, or along a curve whose points are the first of two lent arrays.
#[derive(Clone, Copy)]
pub enum Scale {
    AsRead,
    Along(Points),
}

// By the points that `gather_scale` gathered.
pub fn value_on(scale: Scale, xs: &[i64], ys: &[i64], raw: i64) -> Result<i64, Refusal>
    ensures { said result ≡ on_scale (scale_in scale xs.now ys.now) raw }
{
    match scale {
        Scale::AsRead => Ok(raw),
        Scale::Along(points) => value_along(points, xs, ys, raw),
    }
}

// The scale of a parameter with this CURTX. The points of its curve are the first of the arrays;
// what stands behind them stays.
pub fn gather_scale(
    tables: [&[u8]; TABLES],
    words: &[u64],
    links: &[u16],
    columns: &[u16],
    curtx: OptionalCurve,
    xs: &mut [i64; MOST_MEMBERS],
    ys: &mut [i64; MOST_MEMBERS],
) -> Scale
    ensures value { result ≡ scale_by (answers (database (map (λ x. x.now) tables.entry) words.now links.now columns.now)) curtx }
    ensures xs_after { xs.new ≡ sets xs.old 0
        (map xvals_of (point_rows (answers (database (map (λ x. x.now) tables.entry) words.now links.now columns.now)) curtx)) }
    ensures ys_after { ys.new ≡ sets ys.old 0
        (map yvals_of (point_rows (answers (database (map (λ x. x.now) tables.entry) words.now links.now columns.now)) curtx)) }
{
    if !curtx.given {
        return Scale::AsRead;
    }
    let name = curtx.name;
    Scale::Along(gather_points(tables, words, links, columns, name, xs, ys))
}

// The value on that scale.
pub fn scale_value(
    tables: [&[u8]; TABLES],
    words: &[u64],
    links: &[u16],
    columns: &[u16],
    curtx: OptionalCurve,
    raw: i64,
) -> Result<i64, Refusal>
    ensures { said result
        ≡ on_scale (scale_of (answers (database (map (λ x. x.now) tables.entry) words.now links.now columns.now)) curtx) raw }
{
    let mut xs = [0i64; MOST_MEMBERS];
    let mut ys = [0i64; MOST_MEMBERS];
    let scale = gather_scale(tables, words, links, columns, curtx, &mut xs, &mut ys);
    value_on(scale, &xs, &ys, raw)
}
