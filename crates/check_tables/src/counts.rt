// How many rows have each reason, and how many are good.
ghost use Rattle.std.specs.Prelude.{◌≡◌};
ghost use Rattle.laws.specs.Prefix.{count_with};
ghost use Rattle.check_tables.specs.Reasons.{has_reason};

use arrays::half_at;
use words::say;
use words::say::words;

// How many of the first n cells have this reason; the good ones have reason 0.
fn count_reason(cells: &[u16], n: usize, reason: u16) -> usize
    ensures { result ≡ count_with (has_reason cells.now reason) n }
{
    let mut count: usize = 0;
    let mut i: usize = 0;
    while i < n {
        if half_at(cells, i) / 256 == reason {
            count += 1;
            i += 1;
        } else {
            i += 1;
        }
    }
    count
}

// "4 rows", "1 row"
fn say_number_of_rows(rt: &impl Print, count: usize) {
    say::number(rt, count);
    if count == 1 {
        words(rt, b" row");
    } else {
        words(rt, b" rows");
    }
}

// A line for a reason that a row has: "reason 9: 4 rows"
fn say_reason_count(rt: &impl Print, reason: u16, count: usize) {
    if count == 0 {
        return;
    }
    words(rt, b"reason ");
    say::number(rt, reason as usize);
    words(rt, b": ");
    say_number_of_rows(rt, count);
    words(rt, b"\n");
}

// A line for each reason.
fn say_reasons(rt: &impl Print, cells: &[u16], n: usize) {
    for reason in 1..15 {
        say_reason_count(rt, reason, count_reason(cells, n, reason));
    }
}

// Those, and the last line: "131 rows, 88 good"
pub(crate) fn say_counts(rt: &impl Print, cells: &[u16], n: usize) {
    say_reasons(rt, cells, n);
    if n == 0 {
        words(
            rt,
            b"no table has a row: is this the directory of pid.dat to mcf.dat?\n",
        );
    }
    say::number(rt, n);
    words(rt, b" rows, ");
    say::number(rt, count_reason(cells, n, 0));
    words(rt, b" good\n");
}
