// What is told, as one result and in the places of an answer.
ghost use Rattle.std.specs.Prelude.{◌≡◌, ◌^◌, ◌%◌, take};
ghost use Rattle.telling.specs.Answers.{code, written};

use crate::Telling;

// The first n of these values, written to the first places: all eight where n is more.
fn write(answer: &mut [i64; 8], these: [i64; 8], n: usize)
    ensures { answer.new ≡ written answer.old (take n these) }
{
    for i in 0..8 {
        if n <= i {
            return;
        }
        answer[i] = these[i];
    }
}

// The only function that writes to an answer. A result has 32 bits for the place, which all places of refusals fit.
pub fn deliver(told: Telling, answer: &mut [i64; 8]) -> u64
    ensures value { result ≡ code told.number (told.place % 2 ^ 32) }
    ensures answer_after { answer.new ≡ written answer.old (take told.count told.values) }
{
    let values = told.values;
    let count = told.count;
    write(answer, values, count);
    told.number as u64 * 4294967296 + (told.place % 4294967296) as u64
}
