// Reasons 1 to 10 and 12.
#![tactic(auto)]

ghost use Rattle.std.specs.Prelude.{◌≡◌, get_or};
ghost use Rattle.std.proofs.lemmas.List.Edits.{sets};
ghost use Rattle.laws.specs.Values.{tabulate};
ghost use Rattle.chain_steps.specs.Chains.{no_row};
ghost use Rattle.base_verdicts.specs.Judged.{next_of, base_of};

use arrays::{PLACES, byte_at, half_at, put_half};
use chain_steps::{NO_ROW, row_at};
use manners::naming_chained;

// Reasons 9 and 12, with their columns.
const SHARED: u16 = 9 * 256;

const CIRCLE: u16 = 12 * 256 + 8;

// The next row of a VALID chain, or NO_ROW.
fn next_of(sound: &[u8], code: u8, found: u16) -> u16
    ensures { result ≡ next_of sound.now code found }
{
    if naming_chained(code) {
        if byte_at(sound, found as usize) == 1 {
            return found;
        }
        return NO_ROW;
    }
    NO_ROW
}

// The next rows of the first n rows.
pub fn next_rows(sound: &[u8], codes: &[u8], found: &[u16], next: &mut [u16; PLACES], n: usize)
    ensures { next.new ≡ sets next.old 0
        (tabulate (λ i. next_of sound.now (get_or codes.now i 0) (get_or found.now i no_row)) 0 n) }
{
    for i in 0..n {
        let row = next_of(sound, byte_at(codes, i), row_at(found, i));
        put_half(next, i, row);
    }
}

fn base_of(own: u16, sound: u8, count: u16, circle: u8) -> u16
    ensures { result ≡ base_of own sound count circle }
{
    if own != 0 {
        return own;
    }
    if sound != 1 {
        return SHARED;
    }
    if count != 0 {
        return count;
    }
    if circle == 1 {
        return CIRCLE;
    }
    0
}

// The verdicts without names of the first n rows.
pub fn base_rows(
    own: &[u16],
    sound: &[u8],
    counts: &[u16],
    circles: &[u8; PLACES],
    base: &mut [u16; PLACES],
    n: usize,
)
    ensures { base.new ≡ sets base.old 0
        (tabulate (λ i. base_of (get_or own.now i 0) (get_or sound.now i 0) (get_or counts.now i 0)
        (get_or circles.now i 0)) 0 n) }
{
    for i in 0..n {
        let cell = base_of(
            half_at(own, i),
            byte_at(sound, i),
            half_at(counts, i),
            byte_at(circles, i),
        );
        put_half(base, i, cell);
    }
}
