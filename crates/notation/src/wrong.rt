// Where a text goes wrong as a coefficient.
ghost use Rattle.std.specs.Prelude.{◌≡◌};
ghost use Rattle.notation.specs.Positions.{is_stuck, wrong_in_coefficient, lone_minus};

use crate::{Stage, next_stage};

fn is_stuck(s: Stage) -> bool
    ensures { result ≡ is_stuck s }
{
    match s {
        Stage::Stuck => true,
        _ => false,
    }
}

// The first character, from 1, at which no coefficient can go on, or one past the end.
pub fn wrong_in_coefficient(text: &[u8]) -> usize
    ensures { result ≡ wrong_in_coefficient text.now }
{
    let mut s = Stage::Start;
    let mut i: usize = 0;
    while i < text.len() {
        s = next_stage(s, text[i]);
        if is_stuck(s) {
            return i + 1;
        }
        i += 1;
    }
    i + 1
}

// Whether a text is a minus alone.
pub fn lone_minus(text: &[u8]) -> bool
    ensures { result ≡ lone_minus text.now }
{
    if text.len() == 1 {
        return text[0] == b'-';
    }
    false
}
