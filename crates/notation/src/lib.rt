// The text of a coefficient: how far its characters are one, and the numbers that they write.
#![tactic(auto)]

pub mod wrong;

ghost use Rattle.std.specs.Prelude.{◌<◌, ◌^◌, ◌≡◌};
ghost use Rattle.notation.specs.Stages.{on_digit, in_digits, stage_after, is_coefficient};
ghost use Rattle.notation.specs.Scientific.{with_digit, with_character, Short, parsed_of};

// What the characters so far end with. Each but Stuck is the beginning of a coefficient.
#[derive(Clone, Copy)]
pub enum Stage {
    Start,
    Minus,
    Whole,
    DecimalPoint,
    Fraction,
    ExponentMark,
    ExponentSign,
    Exponent,
    Stuck,
}

// The numbers that a text writes: a minus before the digits, all digits without the point, how many stand after it, a
// minus before the exponent, and the exponent's digits.
#[derive(Clone, Copy)]
pub struct Scientific {
    pub negative: bool,
    pub digits: u64,
    pub places: u64,
    pub lowers: bool,
    pub exponent: u64,
}

// What a text is.
#[derive(Clone, Copy)]
pub enum Parsed {
    Parts(Scientific),
    NotCoefficient,
    TooWide,
}

// The width of a coefficient's column.
const WIDTH: usize = 14;

// The stage that a digit leads to.
fn on_digit(s: Stage, c: u8) -> Stage
    ensures { result ≡ on_digit s c }
{
    if c < b'0' {
        return Stage::Stuck;
    }
    if b'9' < c {
        return Stage::Stuck;
    }
    s
}

// The same where an e or E may end the digits.
fn in_digits(s: Stage, c: u8) -> Stage
    ensures { result ≡ in_digits s c }
{
    match c {
        b'E' | b'e' => Stage::ExponentMark,
        _ => on_digit(s, c),
    }
}

// The stage with one more character.
pub fn next_stage(s: Stage, c: u8) -> Stage
    ensures { result ≡ stage_after s c }
{
    match s {
        Stage::Start => {
            if c == b'-' {
                return Stage::Minus;
            }
            on_digit(Stage::Whole, c)
        }
        Stage::Minus => on_digit(Stage::Whole, c),
        Stage::Whole => {
            if c == b'.' {
                return Stage::DecimalPoint;
            }
            in_digits(Stage::Whole, c)
        }
        Stage::DecimalPoint => in_digits(Stage::Fraction, c),
        Stage::Fraction => in_digits(Stage::Fraction, c),
        Stage::ExponentMark => match c {
            b'+' | b'-' => Stage::ExponentSign,
            _ => on_digit(Stage::Exponent, c),
        },
        Stage::ExponentSign => on_digit(Stage::Exponent, c),
        Stage::Exponent => on_digit(Stage::Exponent, c),
        Stage::Stuck => Stage::Stuck,
    }
}

// Whether a whole text that ends at a stage is a coefficient.
fn is_coefficient(s: Stage) -> bool
    ensures { result ≡ is_coefficient s }
{
    match s {
        Stage::Whole | Stage::DecimalPoint | Stage::Fraction | Stage::Exponent => true,
        _ => false,
    }
}

// A number with one more digit.
fn with_digit(n: u64, c: u8) -> u64
    requires { n < 10 ^ 14 }
    ensures { result ≡ with_digit n c }
{
    if c < b'0' {
        return n * 10;
    }
    n * 10 + ((c - b'0') as u64)
}

// The numbers with one more character, which led to the stage s.
fn with_character(n: Scientific, s: Stage, c: u8) -> Scientific
    requires { Short 14 n }
    ensures { result ≡ with_character n s c }
{
    let mut m = n;
    match s {
        Stage::Minus => {
            m.negative = true;
            m
        }
        Stage::Whole => {
            m.digits = with_digit(n.digits, c);
            m
        }
        Stage::Fraction => {
            m.digits = with_digit(n.digits, c);
            m.places = n.places + 1;
            m
        }
        Stage::ExponentSign => {
            m.lowers = c == b'-';
            m
        }
        Stage::Exponent => {
            m.exponent = with_digit(n.exponent, c);
            m
        }
        _ => n,
    }
}

// What a text of any length is, in one walk over it.
pub fn parse(text: &[u8]) -> Parsed
    ensures { result ≡ parsed_of text.now }
{
    if WIDTH < text.len() {
        return Parsed::TooWide;
    }
    let mut s = Stage::Start;
    let mut n = Scientific {
        negative: false,
        digits: 0,
        places: 0,
        lowers: false,
        exponent: 0,
    };
    for i in 0..text.len() {
        s = next_stage(s, text[i]);
        n = with_character(n, s, text[i]);
    }
    if is_coefficient(s) {
        return Parsed::Parts(n);
    }
    Parsed::NotCoefficient
}
