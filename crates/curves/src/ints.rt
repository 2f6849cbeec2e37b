// The operations on i64, each with what it gives as an integer,
// so that a caller's proof speaks of integers and not of their bits.
ghost use Rattle.std.specs.Prelude.{◌≡◌, not, ℕ, ◌^◌, ◌<◌, ℤ, pos, nat_abs, ◌+ℤ◌, ◌-ℤ◌};
ghost use Rattle.std.specs.Int.Signed.{lt_z, non_neg};
ghost use Rattle.std.specs.Int.{w64};
ghost use Rattle.std.proofs.Common.{SFits};
ghost use Rattle.curves.specs.Line.{is_between};

pub(crate) fn plus(a: i64, b: i64) -> i64
    requires { SFits w64 (a +ℤ b) }
    ensures { result ≡ a +ℤ b }
{
    a + b
}

pub(crate) fn minus(a: i64, b: i64) -> i64
    requires { SFits w64 (a -ℤ b) }
    ensures { result ≡ a -ℤ b }
{
    a - b
}

pub fn less(a: i64, b: i64) -> bool
    ensures { result ≡ lt_z a b }
{
    a < b
}

pub(crate) fn lies_within(low: i64, high: i64, z: i64) -> bool
    ensures { result ≡ is_between low high z }
{
    if low <= z { z <= high } else { false }
}

pub(crate) fn is_negative(a: i64) -> bool
    ensures { result ≡ not (non_neg a) }
{
    a < 0
}

pub(crate) fn of_nat(n: u64) -> i64
    requires { n < 2 ^ 63 }
    ensures { result ≡ pos n }
{
    n as i64
}

// The magnitude.
pub fn size(a: i64) -> u64
    ensures { result ≡ nat_abs a }
{
    if a < 0 { (-1 - a) as u64 + 1 } else { a as u64 }
}
