// A limit state as five numbers, which is how a program in another language keeps it.
#![tactic(auto)]

ghost use Rattle.std.specs.Prelude.{◌≡◌, ◌<◌, pos, nat_abs, get_or};
ghost use Rattle.offered.specs.Offered.{is_within, are_fields, offered_state};

use curves::ints::{less, size};
use limit_state::state::LimitState;

fn number_at(numbers: &[i64; 5], k: usize) -> i64
    requires { k < 5 }
    ensures { result ≡ get_or numbers.now k (pos 0) }
{
    numbers[k]
}

// Whether it is one of 0 to most.
fn is_within(most: u64, n: i64) -> bool
    ensures { result ≡ is_within most n }
{
    if less(n, 0) {
        return false;
    }
    size(n) <= most
}

fn holds(numbers: &[i64; 5], k: usize, most: u64) -> bool
    requires { k < 5 }
    ensures { result ≡ is_within most (get_or numbers.now k (pos 0)) }
{
    is_within(most, number_at(numbers, k))
}

// Whether each is a number that its field of a state can hold.
fn are_fields(numbers: &[i64; 5]) -> bool
    ensures { result ≡ are_fields numbers.now }
{
    if !holds(numbers, 0, 1) {
        return false;
    }
    if !holds(numbers, 1, 65535) {
        return false;
    }
    if !holds(numbers, 2, 65535) {
        return false;
    }
    if !holds(numbers, 3, 255) {
        return false;
    }
    holds(numbers, 4, 255)
}

fn size_at(numbers: &[i64; 5], k: usize) -> u64
    requires { k < 5 }
    ensures { result ≡ nat_abs (get_or numbers.now k (pos 0)) }
{
    size(number_at(numbers, k))
}

// Fresh, APID, count, run, announced. Whether a limit step takes the state is not asked here.
pub fn state_of(numbers: &[i64; 5]) -> Option<LimitState>
    ensures { result ≡ offered_state numbers.now }
{
    if !are_fields(numbers) {
        return None;
    }
    let fresh = size_at(numbers, 0) == 1;
    let apid = size_at(numbers, 1) as u16;
    let count = size_at(numbers, 2) as u16;
    let run = size_at(numbers, 3) as u8;
    let announced = size_at(numbers, 4) as u8;
    Some(LimitState {
        fresh,
        apid,
        count,
        run,
        announced,
    })
}
