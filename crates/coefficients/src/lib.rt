// The double that the text of a coefficient is.
#![tactic(auto)]

ghost use Rattle.std.specs.Prelude.{◌<◌, ◌≤◌, ◌^◌, ◌≡◌};
ghost use Rattle.notation.specs.Scientific.{Short};
ghost use Rattle.coefficients.specs.Coefficient.{double, with_sign, scaled, double_of, coefficient_of};

use notation::{Parsed, Scientific, parse};

// What a text is.
#[derive(Clone, Copy)]
pub enum Coefficient {
    Double(f64),
    NotCoefficient,
    PowerOutOfRange,
    TooWide,
}

// A power of ten is -22 to 22.
const FARTHEST: u64 = 22;

// 10 ^ 0 to 10 ^ 22, which are doubles exactly.
const TENS: [f64; 23] = [
    1e0, 1e1, 1e2, 1e3, 1e4, 1e5, 1e6, 1e7, 1e8, 1e9, 1e10, 1e11, 1e12, 1e13, 1e14, 1e15, 1e16,
    1e17, 1e18, 1e19, 1e20, 1e21, 1e22,
];

fn ten(k: usize) -> f64
    requires { k ≤ 22 }
    ensures { result ≡ double (10 ^ k) }
{
    TENS[k]
}

fn with_sign(negative: bool, x: f64) -> f64
    ensures { result ≡ with_sign negative x }
{
    if negative { -x } else { x }
}

// The digits times ten to the power up - down.
fn scale(negative: bool, digits: u64, up: u64, down: u64) -> Coefficient
    requires { digits < 10 ^ 14 }
    ensures { result ≡ scaled negative digits up down }
{
    if down <= up {
        let k = up - down;
        if FARTHEST < k {
            return Coefficient::PowerOutOfRange;
        }
        return Coefficient::Double(with_sign(negative, (digits as f64) * ten(k as usize)));
    }
    let k = down - up;
    if FARTHEST < k {
        return Coefficient::PowerOutOfRange;
    }
    Coefficient::Double(with_sign(negative, (digits as f64) / ten(k as usize)))
}

// The double of the numbers that a text writes.
fn to_double(n: Scientific) -> Coefficient
    requires { Short 14 n }
    ensures { result ≡ double_of n }
{
    if n.lowers {
        return scale(n.negative, n.digits, 0, n.exponent + n.places);
    }
    scale(n.negative, n.digits, n.exponent, n.places)
}

// What a text of any length is.
pub fn read_coefficient(text: &[u8]) -> Coefficient
    ensures { result ≡ coefficient_of text.now }
{
    match parse(text) {
        Parsed::Parts(n) => to_double(n),
        Parsed::NotCoefficient => Coefficient::NotCoefficient,
        Parsed::TooWide => Coefficient::TooWide,
    }
}
