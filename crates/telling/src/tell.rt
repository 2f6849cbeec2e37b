// What is told, as values or as a refusal.
ghost use Rattle.std.specs.Prelude.{◌≡◌, take};
ghost use Rattle.outcomes.specs.Refusals.{refusal_number, refusal_place};
ghost use Rattle.telling.specs.Answers.{told_plainly, with_these_values, refused_with};

use crate::Telling;
use outcomes::{Refusal, number_of, place_of};

// The first `count` of these values.
pub fn tell(values: [i64; 8], count: usize) -> Telling
    ensures { told_plainly result ≡ with_these_values (take count values) }
{
    Telling {
        number: 0,
        place: 0,
        count,
        values,
    }
}

pub fn tell_refusal(refusal: Refusal) -> Telling
    ensures { told_plainly result ≡ refused_with (refusal_number refusal) (refusal_place refusal) }
{
    let number = number_of(refusal);
    let place = place_of(refusal);
    Telling {
        number,
        place,
        count: 0,
        values: [0; 8],
    }
}
