// Which rows' chains come back to them.
ghost use Rattle.std.specs.Prelude.{◌≡◌};
ghost use Rattle.std.proofs.lemmas.List.Edits.{sets};
ghost use Rattle.laws.specs.Prefix.{flag};
ghost use Rattle.laws.specs.Values.{tabulate};
ghost use Rattle.chain_steps.specs.Chains.{comes_to};
ghost use Rattle.chains.specs.Courses.{KnownEnds};

use crate::ends::{Course, follow, mark_ended};
use arrays::PLACES;
use chain_steps::put_flag;

// Whether within n steps the chain from row i comes back to it. What is learnt of rows whose chains end is marked.
fn comes_back(next: &[u16], ended: &mut [u8; PLACES], n: usize, i: usize) -> bool
    requires { KnownEnds next.now ended.old }
    ensures value { result ≡ comes_to next.now i n i }
    ensures known_ends { KnownEnds next.now ended.new }
{
    match follow(next, ended, n, i) {
        Course::Ends => {
            mark_ended(next, ended, n, i);
            false
        }
        Course::Returns => true,
        Course::Rounds => false,
    }
}

// Marks each of the first n rows whose chain comes back to it within n steps with 1, the others with 0.
pub fn mark_circles(next: &[u16], circles: &mut [u8], n: usize)
    ensures { circles.new ≡ sets circles.old 0 (tabulate (λ i. flag (comes_to next.now i n i)) 0 n) }
{
    // Rows past these are remembered nowhere, and their chains followed anew each time.
    let mut ended = [0u8; PLACES];
    for i in 0..n {
        let back = comes_back(next, &mut ended, n, i);
        put_flag(circles, i, back);
    }
}
