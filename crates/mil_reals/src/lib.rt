// Real numbers of MIL-STD-1750A as the bits of the double that each is exactly.
#![tactic(auto)]

ghost use Rattle.std.specs.Prelude.{◌+◌, ◌*◌, ◌-◌, ◌^◌, ◌≤◌, ◌<◌, ◌≡◌, pos, ◌+ℤ◌};
ghost use Rattle.std.specs.Float.{binary64};
ghost use Rattle.std.specs.Float.Ieee.{of_bits};
ghost use Rattle.std.specs.Float.Ieee.Exact.{HasValue};
ghost use Rattle.mil_reals.specs.Real.{power_of, mil_bits, bits32, bits48};

// The bits of ±a * 2 ^ raised, in units of the least double, 2 ^ -1074. The leading zeros of a bring its highest set
// bit to bit 52, where it isn't written.
fn normalised(negative: bool, a: u64, raised: u64) -> u64
    requires { (0 < a) × (a < 2 ^ 53) × (52 ≤ raised) × (raised < 2000) }
    ensures { HasValue (of_bits binary64 result) negative (a * 2 ^ raised) (2 ^ 1074) }
{
    let zeros = u64::leading_zeros(a) as u64;
    let digits = a << (zeros - 11);
    let bits = (raised + 12 - zeros) * 4503599627370496 + (digits - 4503599627370496);
    if negative {
        return 9223372036854775808 + bits;
    }
    bits
}

// The power of two of an exponent x, in units of the least double.
fn raised(x: u64, width: u64) -> u64
    requires { (x < 256) × (1 ≤ width) × (width ≤ 53) }
    ensures { (power_of width x +ℤ pos 1074 ≡ pos result) × (52 ≤ result) × (result < 2000) }
{
    if x < 128 {
        return 1075 - width + x;
    }
    819 - width + x
}

// A mantissa m of `width` bits and an exponent x of 8: once for both widths.
fn mil_bits(m: u64, x: u64, width: u64) -> u64
    requires { (m < 2 ^ width) × (x < 256) × (1 ≤ width) × (width ≤ 53) }
    ensures { result ≡ mil_bits width m x }
{
    if m == 0 {
        return 0;
    }
    let up = raised(x, width);
    let half = 1u64 << (width - 1);
    if m < half {
        return normalised(false, m, up);
    }
    normalised(true, half - (m - half), up)
}

// PFC 3: 24 bits of mantissa and 8 of exponent, the last of v.
pub fn real32(v: u64) -> u64
    ensures { result ≡ bits32 v }
{
    mil_bits(v / 256 % 16777216, v % 256, 24)
}

// PFC 4: 24 bits of mantissa, 8 of exponent and 16 more of mantissa, the last of v.
pub fn real48(v: u64) -> u64
    ensures { result ≡ bits48 v }
{
    mil_bits(
        v / 16777216 % 16777216 * 65536 + v % 65536,
        v / 65536 % 256,
        40,
    )
}
