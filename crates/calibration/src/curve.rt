// The value of a curve, whose points stand in any order: the X of each in one array, and its Y in another.
ghost use Rattle.std.specs.Prelude.{◌≡◌};
ghost use Rattle.calibration.specs.Curve.{of_line, point_numbered, through, off_end, from_last, before_first, curve_at, said_curve};

use crate::ints::item;
use crate::nearest::{above, below, not_above};
use curves::ints::less;
use curves::line::{LineError, Point, on_line};
use rows::letters::OffEnds;

// Why a curve has no value.
#[derive(Clone, Copy, PartialEq, Eq)]
pub enum CurveError {
    // The raw value is off the ends of an F curve, or of one without two points.
    OffCurve,
    // The result is outside -2,147,483,648 to 2,147,483,647.
    Beyond,
    // No curve has these points, or no parameter this raw value.
    NoLine,
}

impl From<LineError> for CurveError {
    ghost from_gives = { λ line e. e ≡ of_line line };

    fn from(line: LineError) -> CurveError {
        match line {
            LineError::Beyond => CurveError::Beyond,
            LineError::NoLine => CurveError::NoLine,
        }
    }
}

// The point i, each of whose numbers is 0 past the end of its array.
fn point(xs: &[i64], ys: &[i64], i: usize) -> Point
    ensures { result ≡ point_numbered xs.now ys.now i }
{
    Point {
        x: item(xs, i),
        y: item(ys, i),
    }
}

// The line through two points at x, where there are two.
fn line_through(
    xs: &[i64],
    ys: &[i64],
    from: Option<usize>,
    to: Option<usize>,
    x: i64,
) -> Result<i64, CurveError>
    ensures { said_curve result ≡ through xs.now ys.now from to x }
{
    let Some(i) = from else {
        return Err(CurveError::OffCurve);
    };
    let Some(j) = to else {
        return Err(CurveError::OffCurve);
    };
    let y = on_line(point(xs, ys, i), point(xs, ys, j), x)?;
    Ok(y)
}

// Off an end: P goes on along the line through two points.
fn off_end(
    xs: &[i64],
    ys: &[i64],
    ends: OffEnds,
    from: Option<usize>,
    to: Option<usize>,
    x: i64,
) -> Result<i64, CurveError>
    ensures { said_curve result ≡ off_end ends (through xs.now ys.now from to x) }
{
    match ends {
        OffEnds::Extrapolate => line_through(xs, ys, from, to, x),
        OffEnds::Refuse => Err(CurveError::OffCurve),
    }
}

// At the last point, i, or past it.
fn from_last(xs: &[i64], ys: &[i64], ends: OffEnds, i: usize, x: i64) -> Result<i64, CurveError>
    ensures { said_curve result ≡ from_last ends xs.now ys.now i x }
{
    let last = item(xs, i);
    if less(last, x) {
        return off_end(xs, ys, ends, below(xs, last), Some(i), x);
    }
    Ok(item(ys, i))
}

// Before the first point, j.
fn before_first(xs: &[i64], ys: &[i64], ends: OffEnds, j: usize, x: i64) -> Result<i64, CurveError>
    ensures { said_curve result ≡ before_first ends xs.now ys.now j x }
{
    let next = above(xs, item(xs, j));
    off_end(xs, ys, ends, Some(j), next, x)
}

// The curve's value at the raw value x.
pub fn curve_at(xs: &[i64], ys: &[i64], ends: OffEnds, x: i64) -> Result<i64, CurveError>
    ensures { said_curve result ≡ curve_at ends xs.now ys.now x }
{
    let low = not_above(xs, x);
    let high = above(xs, x);
    match low {
        Some(i) => match high {
            Some(j) => line_through(xs, ys, Some(i), Some(j), x),
            None => from_last(xs, ys, ends, i, x),
        },
        None => match high {
            Some(j) => before_first(xs, ys, ends, j, x),
            None => Err(CurveError::OffCurve),
        },
    }
}
