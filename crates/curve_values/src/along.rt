// The value along a curve.
ghost use Rattle.std.specs.Prelude.{◌≡◌, take, Err};
ghost use Rattle.calibration.specs.Curve as calibration;
ghost use Rattle.curve_points.specs.Points.{curve_in};
ghost use Rattle.outcomes.specs.Refusals.{said, refused_by};
ghost use Rattle.curve_values.specs.Along.{outcome_of, along};

use calibration::curve::{CurveError, curve_at};
use curve_points::Points;
use outcomes::Refusal;

fn refusal_of(error: CurveError) -> Refusal
    ensures { refused_by result ≡ outcome_of (calibration.said_curve (Err error)) }
{
    match error {
        CurveError::OffCurve => Refusal::OffCurve,
        CurveError::Beyond => Refusal::OutOfRange,
        CurveError::NoLine => Refusal::OffCurve,
    }
}

// The first numbers of an array, as far as it has so many.
fn front(numbers: &[i64], count: usize) -> &[i64]
    ensures { result.now ≡ take count numbers.now }
{
    if numbers.len() < count {
        return numbers;
    }
    &numbers[..count]
}

// By the points that `gather_points` gathered.
pub fn value_along(points: Points, xs: &[i64], ys: &[i64], raw: i64) -> Result<i64, Refusal>
    ensures { said result ≡ along (curve_in points xs.now ys.now) raw }
{
    let Some(ends) = points.ends else {
        return Err(Refusal::OffCurve);
    };
    match curve_at(front(xs, points.count), front(ys, points.count), ends, raw) {
        Ok(y) => Ok(y),
        Err(error) => Err(refusal_of(error)),
    }
}
