// Orders and elements of i64, each with what it gives as an integer.
ghost use Rattle.std.specs.Prelude.{◌≡◌, pos, get_or};
ghost use Rattle.std.specs.Int.Signed.{le_z};

pub(crate) fn at_most(a: i64, b: i64) -> bool
    ensures { result ≡ le_z a b }
{
    a <= b
}

// The element i, and 0 past the end.
pub(crate) fn item(xs: &[i64], i: usize) -> i64
    ensures { result ≡ get_or xs.now i (pos 0) }
{
    if i < xs.len() { xs[i] } else { 0 }
}
