// The nearest of several numbers, in any order, to a value.
ghost use Rattle.std.specs.Prelude.{◌≡◌, length};
ghost use Rattle.calibration.specs.Nearest.{passes, nearer, better, nearest_of, not_above, below, above};

use crate::ints::{at_most, item};
use curves::ints::less;

// The side of a value on which the nearest is looked for.
#[derive(Clone, Copy)]
pub enum Side {
    NotAbove,
    Below,
    Above,
}

// Whether x is on that side of v.
fn on_side(side: Side, v: i64, x: i64) -> bool
    ensures { result ≡ passes side v x }
{
    match side {
        Side::NotAbove => at_most(x, v),
        Side::Below => less(x, v),
        Side::Above => less(v, x),
    }
}

// Whether x is nearer than y, of two numbers on that side.
fn is_nearer(side: Side, x: i64, y: i64) -> bool
    ensures { result ≡ nearer side x y }
{
    match side {
        Side::NotAbove => less(y, x),
        Side::Below => less(y, x),
        Side::Above => less(x, y),
    }
}

// The nearest so far, with the element n looked at too.
fn choose(xs: &[i64], side: Side, v: i64, best: Option<usize>, n: usize) -> Option<usize>
    ensures { result ≡ better side xs.now v best n }
{
    let x = item(xs, n);
    if !on_side(side, v, x) {
        return best;
    }
    match best {
        None => Some(n),
        Some(i) => {
            if is_nearer(side, x, item(xs, i)) {
                Some(n)
            } else {
                Some(i)
            }
        }
    }
}

// The place of the nearest to v on one side, where there is one.
fn nearest(xs: &[i64], side: Side, v: i64) -> Option<usize>
    ensures { result ≡ nearest_of side xs.now v (length xs.now) }
{
    let mut best = None;
    for n in 0..xs.len() {
        best = choose(xs, side, v, best, n);
    }
    best
}

// The greatest that is not above v.
pub fn not_above(xs: &[i64], v: i64) -> Option<usize>
    ensures { result ≡ not_above xs.now v }
{
    nearest(xs, Side::NotAbove, v)
}

// The greatest that is below v.
pub fn below(xs: &[i64], v: i64) -> Option<usize>
    ensures { result ≡ below xs.now v }
{
    nearest(xs, Side::Below, v)
}

// The least that is above v.
pub fn above(xs: &[i64], v: i64) -> Option<usize>
    ensures { result ≡ above xs.now v }
{
    nearest(xs, Side::Above, v)
}
