// A chain followed to its end, or until it comes round.
ghost use Rattle.std.specs.Prelude.{◌≡◌, cond, ◌*◌, ltb};
ghost use Rattle.chains.specs.Courses.{Ends, KnownEnds, Followed};

use arrays::{PLACES, byte_at};
use chain_steps::{NO_NEXT, next_row};

// Where a chain leads: to its end, back to its first row, or round without that row.
#[derive(Clone, Copy)]
pub(crate) enum Course {
    Ends,
    Returns,
    Rounds,
}

// Twice as many steps, up to a number that no chain reaches.
fn longer(steps: usize) -> usize
    ensures { result ≡ cond (ltb steps 32768) (steps * 2) steps }
{
    if steps < 32768 { steps * 2 } else { steps }
}

// The chain from row i, at most n steps of it, up to a row whose chain is known to end. A row that was passed is kept,
// after more steps each time a later one: where it is met again, the chain goes round without coming to row i.
pub(crate) fn follow(next: &[u16], ended: &[u8; PLACES], n: usize, i: usize) -> Course
    requires { KnownEnds next.now ended.now }
    ensures { Followed next.now n i result }
{
    let mut left = n;
    let mut at = i;
    let mut passed = i;
    let mut steps: usize = 1;
    let mut wait: usize = 1;
    while 0 < left {
        if byte_at(ended, at) == 1 {
            return Course::Ends;
        }
        let row = next_row(next, at);
        if row == NO_NEXT {
            return Course::Ends;
        }
        if row == i {
            return Course::Returns;
        }
        if row == passed {
            return Course::Rounds;
        }
        at = row;
        left -= 1;
        if wait == 0 {
            passed = row;
            steps = longer(steps);
            wait = steps;
        } else {
            wait -= 1;
        }
    }
    Course::Rounds
}

// Marks the rows of a chain that ends, from row i on.
pub(crate) fn mark_ended(next: &[u16], ended: &mut [u8; PLACES], n: usize, i: usize)
    requires { KnownEnds next.now ended.old × Ends next.now i }
    ensures { KnownEnds next.now ended.new }
{
    let mut left = n;
    let mut at = i;
    while 0 < left {
        if PLACES <= at {
            return;
        }
        if ended[at] == 1 {
            return;
        }
        ended[at] = 1;
        let row = next_row(next, at);
        if row == NO_NEXT {
            return;
        }
        at = row;
        left -= 1;
    }
}
