// Polynomial curves.
#![tactic(auto)]

ghost use Rattle.std.specs.Prelude.{◌≡◌, to_bits};
ghost use Rattle.std.specs.Float.{binary64};
ghost use Rattle.polynomials.specs.Polynomial.{polynomial_at};

// The five coefficients of a curve, held together.
#[derive(Clone, Copy)]
pub struct Polynomial {
    pub pol1: f64,
    pub pol2: f64,
    pub pol3: f64,
    pub pol4: f64,
    pub pol5: f64,
}

// The value at a raw value, from POL5 down.
pub fn evaluate(p: Polynomial, raw: i64) -> f64
    ensures { result ≡ polynomial_at p raw }
{
    let x = std::num::nearest_i64_to_f64(raw);
    (((p.pol5 * x + p.pol4) * x + p.pol3) * x + p.pol2) * x + p.pol1
}

// The bits of a double; of a NaN the one pattern that `to_bits` has for it.
pub fn bits_of(x: f64) -> u64
    ensures { result ≡ to_bits binary64 x }
{
    if x != x {
        0x7ff8_0000_0000_0000
    } else {
        f64::to_bits(x)
    }
}
