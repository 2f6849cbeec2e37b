// How many questions were asked, how many answers differ, and how many lines can't be read: of one file and of several.
#![tactic(auto)]

ghost use Rattle.std.specs.Prelude.{◌≡◌, get_or};
ghost use Rattle.laws.specs.Values.{tabulate};
ghost use Rattle.scripts.specs.Words.{question_count};
ghost use Rattle.tallies.specs.Totals.{tally_after, together};
ghost use Rattle.tallies.specs.Totals.{plus as plusOf};

use areas::number_at;
use comparing::compare::Verdict;
use lines::columns::keep_at;
use scripts::verb::QUESTIONS;

// How many questions of each kind were asked, how many answers differ, and how many lines can't be read.
#[derive(Clone, Copy)]
pub struct Tally {
    pub asked: [usize; QUESTIONS],
    pub differ: usize,
    pub unread: usize,
}

// The greatest number of 64 bits, at which a count stops.
const MOST: usize = 18446744073709551615;

fn plus(a: usize, b: usize) -> usize
    ensures { result ≡ plusOf a b }
{
    if a <= MOST - b {
        return a + b;
    }
    MOST
}

// One more question of a kind, or one more line that can't be read.
pub fn count(tally: Tally, k: usize, verdict: Verdict) -> Tally
    ensures { result ≡ tally_after tally k verdict }
{
    let mut asked = tally.asked;
    match verdict {
        Verdict::Unread => Tally {
            asked,
            differ: tally.differ,
            unread: plus(tally.unread, 1),
        },
        Verdict::Same => {
            let n = number_at(&asked, k);
            keep_at(&mut asked, k, plus(n, 1));
            Tally {
                asked,
                differ: tally.differ,
                unread: tally.unread,
            }
        }
        Verdict::Differs => {
            let n = number_at(&asked, k);
            keep_at(&mut asked, k, plus(n, 1));
            Tally {
                asked,
                differ: plus(tally.differ, 1),
                unread: tally.unread,
            }
        }
    }
}

fn sum(a: [usize; QUESTIONS], b: [usize; QUESTIONS], k: usize) -> usize
    ensures { result ≡ plusOf (get_or a k 0) (get_or b k 0) }
{
    plus(number_at(&a, k), number_at(&b, k))
}

// Kind by kind.
fn sums(a: [usize; QUESTIONS], b: [usize; QUESTIONS]) -> [usize; QUESTIONS]
    ensures { result ≡ tabulate (λ k. plusOf (get_or a k 0) (get_or b k 0)) 0 question_count }
{
    let mut asked = [0usize; QUESTIONS];
    for k in 0..QUESTIONS {
        asked[k] = sum(a, b, k);
    }
    asked
}

// The tally of two files, or of one more.
pub fn add_up(a: Tally, b: Tally) -> Tally
    ensures { result ≡ together a b }
{
    let x = a.asked;
    let y = b.asked;
    Tally {
        asked: sums(x, y),
        differ: plus(a.differ, b.differ),
        unread: plus(a.unread, b.unread),
    }
}
