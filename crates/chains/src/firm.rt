// Which rows' chains end with every row firm.
ghost use Rattle.std.specs.Prelude.{◌≡◌, true, ◌+◌};
ghost use Rattle.std.proofs.lemmas.List.Edits.{sets};
ghost use Rattle.laws.specs.Prefix.{flag};
ghost use Rattle.laws.specs.Values.{tabulate};
ghost use Rattle.chain_steps.specs.Chains.{firm_from};
ghost use Rattle.chains.specs.Courses.{KnownDepths, DepthIs};

use arrays::{PLACES, byte_at};
use chain_steps::{NO_NEXT, depth_at, next_row, put_flag};

// Within how many rows, at most n, the chain from row i ends, each row firm; 0 where it doesn't.
fn firm_depth(next: &[u16], firm: &[u8], depths: &[u16; PLACES], n: usize, i: usize) -> usize
    requires { KnownDepths next.now firm.now depths.now }
    ensures { DepthIs next.now firm.now n i result }
{
    let mut left = n;
    let mut at = i;
    while 0 < left {
        let depth = depth_at(depths, at);
        if 0 < depth {
            if depth <= left {
                return (n - left) + depth;
            }
        }
        if byte_at(firm, at) != 1 {
            return 0;
        }
        let row = next_row(next, at);
        if row == NO_NEXT {
            return (n - left) + 1;
        }
        at = row;
        left -= 1;
    }
    0
}

// Keeps the depths of the rows of a firm chain, from row i on, which has this depth.
fn keep_depths(next: &[u16], firm: &[u8], depths: &mut [u16; PLACES], depth: usize, i: usize)
    requires { KnownDepths next.now firm.now depths.old × ((depth ≡ 0 → ⊥) → firm_from next.now firm.now depth i ≡ true) }
    ensures { KnownDepths next.now firm.now depths.new }
{
    let mut left = depth;
    let mut at = i;
    while 0 < left {
        if PLACES <= at {
            return;
        }
        if depths[at] != 0 {
            return;
        }
        if 65535 < left {
            return;
        }
        depths[at] = left as u16;
        let row = next_row(next, at);
        if row == NO_NEXT {
            return;
        }
        at = row;
        left -= 1;
    }
}

// Whether within n rows the chain from row i ends, each row firm. What is learnt of its rows is kept.
fn is_firm(next: &[u16], firm: &[u8], depths: &mut [u16; PLACES], n: usize, i: usize) -> bool
    requires { KnownDepths next.now firm.now depths.old }
    ensures value { result ≡ firm_from next.now firm.now n i }
    ensures known_depths { KnownDepths next.now firm.now depths.new }
{
    let depth = firm_depth(next, firm, depths, n, i);
    keep_depths(next, firm, depths, depth, i);
    0 < depth
}

// Marks each of the first n rows whose chain ends within so many rows, each of them firm, with 1, the others with 0.
pub fn mark_firm(next: &[u16], firm: &[u8], chains: &mut [u8], within: usize, n: usize)
    ensures { chains.new ≡ sets chains.old 0
        (tabulate (λ i. flag (firm_from next.now firm.now within i)) 0 n) }
{
    let mut depths = [0u16; PLACES];
    for i in 0..n {
        let all = is_firm(next, firm, &mut depths, within, i);
        put_flag(chains, i, all);
    }
}
