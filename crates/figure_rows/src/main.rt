// 01's figure, a caf row that counts three points and two sound points of it, explained row by row.
#![tactic(auto)]

use explaining::{ExplainError, explain};
use tables::SizeError;
use units::{RowNumber, TableNumber};
use words::say::{number, words};

fn say_place(rt: &impl Print, place: usize) {
    words(rt, b" ");
    number(rt, place);
}

// The verdict of a row, of how many rows it speaks, and what the three places that are lent then hold.
fn say_row(rt: &impl Print, table: usize, row: usize) {
    let none: &[u8] = b"";
    let caf: &[u8] = b"C1\tA\tI\tI\tD\t\t3\tP\n";
    let cap: &[u8] = b"C1\t0\t0\nC1\t10\t-5\n";
    let tables = [
        none, none, none, none, caf, cap, none, none, none, none, none,
    ];
    let mut places = [99usize; 3];
    match explain(tables, TableNumber(table), RowNumber(row), &mut places) {
        Ok(explanation) => {
            number(rt, explanation.verdict as usize);
            words(rt, b" speaks of ");
            number(rt, explanation.causes);
            words(rt, b":");
            say_place(rt, places[0]);
            say_place(rt, places[1]);
            say_place(rt, places[2]);
            words(rt, b"\n");
        }
        Err(ExplainError::NoRow) => words(rt, b"no such row\n"),
        Err(ExplainError::Sizes(SizeError::TooLong(_))) => words(rt, b"refused 1\n"),
        Err(ExplainError::Sizes(SizeError::TooManyRows(_))) => words(rt, b"refused 2\n"),
    }
}

fn main(rt: HostRuntime) {
    say_row(&rt, 5, 1);
    say_row(&rt, 6, 1);
    say_row(&rt, 6, 2);
    say_row(&rt, 6, 3);
    say_row(&rt, 12, 1);
}
