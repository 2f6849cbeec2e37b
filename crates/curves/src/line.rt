// The straight line through two points, its exact fraction rounded down.
ghost use Rattle.std.specs.Prelude.{◌≡◌, true, ℕ, ◌+◌, ◌*◌, ◌^◌, ◌<◌, ◌≤◌, ℤ, pos, nat_abs, ◌+ℤ◌, ◌-ℤ◌, ◌*ℤ◌};
ghost use Rattle.curves.specs.Floor.{floor_div};
ghost use Rattle.curves.specs.Line.{is_coordinate, is_point, is_segment, is_raw, height_at, result_of, line_at, said_on_line};

use crate::ints::{is_negative, less, lies_within, minus, of_nat, plus, size};

// A point of a curve: XVALS and YVALS of a row of cap.
#[derive(Clone, Copy)]
pub struct Point {
    pub x: i64,
    pub y: i64,
}

#[derive(Clone, Copy, PartialEq, Eq)]
pub enum LineError {
    // The result is outside -2,147,483,648 to 2,147,483,647.
    Beyond,
    // No curve has these points in this order, or no parameter this raw value.
    NoLine,
}

fn is_coordinate(z: i64) -> bool
    ensures { result ≡ is_coordinate z }
{
    lies_within(-1073741824, 1073741823, z)
}

fn is_point(p: Point) -> bool
    ensures { result ≡ is_point p }
{
    if is_coordinate(p.x) {
        return is_coordinate(p.y);
    }
    false
}

fn is_segment(from: Point, to: Point) -> bool
    ensures { result ≡ is_segment from to }
{
    if !is_point(from) {
        return false;
    }
    if !is_point(to) {
        return false;
    }
    less(from.x, to.x)
}

// The result y, where it is in the range of an answer.
fn answer(y: i64) -> Result<i64, LineError>
    ensures { said_on_line result ≡ result_of y }
{
    if lies_within(-2147483648, 2147483647, y) {
        return Ok(y);
    }
    Err(LineError::Beyond)
}

// The result n above y. A larger n is out of the range whatever y is.
fn above(y: i64, n: u64) -> Result<i64, LineError>
    requires { nat_abs y ≤ 2 ^ 30 }
    ensures { said_on_line result ≡ result_of (y +ℤ pos n) }
{
    if 0x1_0000_0000 <= n {
        return Err(LineError::Beyond);
    }
    answer(plus(y, of_nat(n)))
}

// The result n below y.
fn below(y: i64, n: u64) -> Result<i64, LineError>
    requires { nat_abs y ≤ 2 ^ 30 }
    ensures { said_on_line result ≡ result_of (y -ℤ pos n) }
{
    if 0x1_0000_0000 <= n {
        return Err(LineError::Beyond);
    }
    answer(minus(y, of_nat(n)))
}

// A rise times a distance: past 63 bits, and never past 64.
fn product(rise: u64, over: u64) -> u64
    requires { (rise ≤ 2 ^ 31) × (over ≤ 2 ^ 32 + 2 ^ 30) }
    ensures { result ≡ rise * over }
{
    rise * over
}

// The result y + rise * over / run. What is taken from y is rounded up, so that the result is rounded down.
fn climbed(y: i64, rise: i64, over: i64, run: u64) -> Result<i64, LineError>
    requires { (nat_abs y ≤ 2 ^ 30) × (nat_abs rise ≤ 2 ^ 31) × (nat_abs over ≤ 2 ^ 32 + 2 ^ 30) × (0 < run) × (run ≤ 2 ^ 31) }
    ensures { said_on_line result ≡ result_of (y +ℤ floor_div (rise *ℤ over) run) }
{
    let m = product(size(rise), size(over));
    let s = is_negative(rise);
    let t = is_negative(over);
    if s != t {
        return below(y, (m + (run - 1)) / run);
    }
    above(y, m / run)
}

fn drawn(from: Point, to: Point, x: i64) -> Result<i64, LineError>
    requires { (is_segment from to ≡ true) × (is_raw x ≡ true) }
    ensures { said_on_line result ≡ result_of (height_at from to x) }
{
    let run = size(minus(to.x, from.x));
    let rise = minus(to.y, from.y);
    let over = minus(x, from.x);
    climbed(from.y, rise, over, run)
}

// The line through two points at x, which may lie between them or off either end.
pub fn on_line(from: Point, to: Point, x: i64) -> Result<i64, LineError>
    ensures { said_on_line result ≡ line_at from to x }
{
    if !is_segment(from, to) {
        return Err(LineError::NoLine);
    }
    if !lies_within(-2147483648, 4294967295, x) {
        return Err(LineError::NoLine);
    }
    drawn(from, to, x)
}
