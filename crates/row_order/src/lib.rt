// The order in which rows that aren't good are told: a cause before what leans on it.
#![tactic(auto)]

ghost use Rattle.std.specs.Prelude.{◌≡◌, min, ◌+◌, ◌*◌, ◌≤◌, ◌<◌, ◌&&◌, eqb, length, get_or, set, replicate};
ghost use Rattle.std.proofs.lemmas.List.Edits.{sets};
ghost use Rattle.laws.specs.Prefix.{all_from};
ghost use Rattle.arrays.specs.Room.{most_places};
ghost use Rattle.row_order.specs.RowOrder.{turn_of, in_turn, first_cause, told_before, order_of};
ghost use Rattle.row_order.specs.Telling.{Tells, TellsAll};

use arrays::{PLACES, byte_at, half_at, put_byte};
use lines::columns::keep_at;
use pointing::next_cause;

// Rows of reasons 1 to 8, 13 and 14; of 9, 10 and 12; and of 11.
const FORMED: u8 = 1;

const KEYED: u8 = 2;

const NAMING: u8 = 3;

// In which turn a row is told.
fn turn_of(verdict: u16) -> u8
    ensures { result ≡ turn_of verdict }
{
    let reason = verdict / 256;
    if reason < 1 {
        return 0;
    }
    if reason < 9 {
        return FORMED;
    }
    if reason == 11 {
        return NAMING;
    }
    if 12 < reason {
        return FORMED;
    }
    KEYED
}

// Puts row i to the order, and tells the next place.
fn put_row(order: &mut [usize], at: usize, i: usize) -> usize
    requires { at < 1000000000 }
    ensures { (result ≡ at + 1) × (order.new ≡ set order.old at i) }
{
    keep_at(order, at, i);
    at + 1
}

// The rows of a turn, in table order, from a place on.
fn put_turn(cells: &[u16], n: usize, turn: u8, order: &mut [usize], from: usize) -> usize
    requires { from + n < 1000000000 }
    ensures value { (result ≡ from + length (all_from (in_turn cells.now turn) 0 n)) × (result ≤ from + n) }
    ensures order_after { order.new ≡ sets order.old from (all_from (in_turn cells.now turn) 0 n) }
{
    let mut at = from;
    let mut i: usize = 0;
    while i < n {
        if turn_of(half_at(cells, i)) == turn {
            at = put_row(order, at, i);
            i += 1;
        } else {
            i += 1;
        }
    }
    at
}

// Whether row i has reason 11 and wasn't told.
fn is_due(cells: &[u16], told: &[u8], i: usize) -> bool
    ensures { result ≡ (eqb (turn_of (get_or cells.now i 0)) 3 && eqb (get_or told.now i 0) 0) }
{
    if turn_of(half_at(cells, i)) == NAMING {
        return byte_at(told, i) == 0;
    }
    false
}

// Tells row i, where it is due, after the row that it names. The rows that are told are marked.
fn tell(
    halves: &[u16],
    bytes: &[u8],
    cells: &[u16],
    n: usize,
    i: usize,
    steps: usize,
    told: &mut [u8],
    order: &mut [usize],
    at: usize,
) -> usize
    requires { (i < n) × (n ≤ length told.old) × (at + steps < 1000000000) }
    ensures { Tells (first_cause halves.now bytes.now cells.now n) (in_turn cells.now 3) n steps i
        told.old order.old at told.new order.new result }
{
    if steps == 0 {
        return at;
    }
    if !is_due(cells, told, i) {
        return at;
    }
    put_byte(told, i, 1);
    match next_cause(halves, bytes, cells, n, i, 0) {
        Some(j) => {
            let end = tell(halves, bytes, cells, n, j, steps - 1, told, order, at);
            put_row(order, end, i)
        }
        None => put_row(order, at, i),
    }
}

// The rows of reason 11, each after the row that it names; by marks of the rows that were told.
fn put_naming(
    halves: &[u16],
    bytes: &[u8],
    cells: &[u16],
    n: usize,
    told: &mut [u8],
    order: &mut [usize],
    from: usize,
) -> usize
    requires { (n ≤ most_places) × (told.old ≡ replicate most_places 0) × (from ≤ 2 * most_places) }
    ensures { TellsAll (first_cause halves.now bytes.now cells.now n) (in_turn cells.now 3) n
        order.old from order.new result }
{
    let mut at = from;
    for i in 0..n {
        at = tell(halves, bytes, cells, n, i, n, told, order, at);
    }
    at
}

fn put_all(
    halves: &[u16],
    bytes: &[u8],
    cells: &[u16],
    n: usize,
    told: &mut [u8; PLACES],
    order: &mut [usize],
) -> usize
    requires { (n ≤ most_places) × (told.old ≡ replicate most_places 0) }
    ensures value { result ≡ length (order_of halves.now bytes.now cells.now n) }
    ensures order_after { order.new ≡ sets order.old 0 (order_of halves.now bytes.now cells.now n) }
{
    let formed = put_turn(cells, n, FORMED, order, 0);
    let keyed = put_turn(cells, n, KEYED, order, formed);
    put_naming(halves, bytes, cells, n, told, order, keyed)
}

fn least(a: usize, b: usize) -> usize
    ensures { (result ≡ min a b) × (result ≤ b) }
{
    if a < b { a } else { b }
}

// Puts the rows of n that aren't good to the array, as far as it has room: how many they are.
// Of rows past the arrays' places nothing is told.
pub fn order_rows(
    halves: &[u16],
    bytes: &[u8],
    cells: &[u16],
    n: usize,
    order: &mut [usize],
) -> usize
    ensures value { result ≡ length (order_of halves.now bytes.now cells.now (min n most_places)) }
    ensures order_after { order.new
        ≡ sets order.old 0 (order_of halves.now bytes.now cells.now (min n most_places)) }
{
    let mut told = [0u8; PLACES];
    let rows = least(n, PLACES);
    put_all(halves, bytes, cells, rows, &mut told, order)
}

// The row at a place of the order; 0 past its end.
pub fn row_in(order: &[usize], k: usize) -> usize
    ensures { result ≡ get_or order.now k 0 }
{
    if k < order.len() { order[k] } else { 0 }
}
