// What a row that isn't good leans on.
use crate::places::say_place;
use crate::wrong::say_wrong;
use arrays::half_at;
use key_texts::{say_quoted, text_column};
use pointing::{count_causes, next_cause};
use std::num::wrapping_add_usize;
use tables::TABLES;
use words::reasons::say_reason;
use words::say;
use words::say::words;

// At most so many rows are told one by one.
const TOLD: usize = 5;

// The column of ocf that asks for CURTX of the row that it names.
const INTER: usize = 4;

// A row that a name leads to, and why it doesn't do: "pcf 8 is not good: 2304"
fn say_named(
    rt: &impl Print,
    tables: [&[u8]; TABLES],
    bytes: &[u8],
    cells: &[u16],
    j: usize,
    column: usize,
) {
    let verdict = half_at(cells, j) as usize;
    say_place(rt, tables, bytes, j);
    if 0 < verdict {
        words(rt, b" is not good: ");
        say::number(rt, verdict);
        return;
    }
    if column == INTER {
        words(rt, b" is good, and has no CURTX that names a caf row");
        return;
    }
    words(rt, b" is good, and of another kind");
}

fn say_cause(
    rt: &impl Print,
    tables: [&[u8]; TABLES],
    bytes: &[u8],
    cells: &[u16],
    reason: usize,
    column: usize,
    j: usize,
    k: usize,
) {
    if 0 < k {
        words(rt, b", ");
    }
    if reason == 11 {
        say_named(rt, tables, bytes, cells, j, column);
    } else {
        say_place(rt, tables, bytes, j);
    }
}

// The first rows that the verdict of row i speaks of.
fn say_first(
    rt: &impl Print,
    tables: [&[u8]; TABLES],
    halves: &[u16],
    bytes: &[u8],
    cells: &[u16],
    n: usize,
    i: usize,
) {
    let verdict = half_at(cells, i) as usize;
    let reason = verdict / 256;
    let column = verdict % 256;
    let mut from: usize = 0;
    for k in 0..TOLD {
        match next_cause(halves, bytes, cells, n, i, from) {
            Some(j) => {
                say_cause(rt, tables, bytes, cells, reason, column, j, k);
                from = wrapping_add_usize(j, 1);
            }
            None => {
                return;
            }
        }
    }
}

// All of them: "pid 12, pid 13 and 4 more"
fn say_causes(
    rt: &impl Print,
    tables: [&[u8]; TABLES],
    halves: &[u16],
    bytes: &[u8],
    cells: &[u16],
    n: usize,
    i: usize,
    count: usize,
) {
    say_first(rt, tables, halves, bytes, cells, n, i);
    if TOLD < count {
        words(rt, b" and ");
        say::number(rt, count - TOLD);
        words(rt, b" more");
    }
}

// Reason 11: what the name leads to.
fn say_name(
    rt: &impl Print,
    tables: [&[u8]; TABLES],
    halves: &[u16],
    bytes: &[u8],
    cells: &[u16],
    n: usize,
    i: usize,
    count: usize,
) {
    words(rt, b": ");
    if count == 0 {
        words(rt, b"no well-formed row has this name");
        return;
    }
    say_causes(rt, tables, halves, bytes, cells, n, i, count);
}

// Reason 10: the number asked, as the table writes it, and the number counted.
fn say_count(
    rt: &impl Print,
    tables: [&[u8]; TABLES],
    halves: &[u16],
    bytes: &[u8],
    cells: &[u16],
    n: usize,
    i: usize,
    count: usize,
) {
    words(rt, b" asked, ");
    say::number(rt, count);
    words(rt, b" counted");
    if 0 < count {
        words(rt, b": ");
        say_causes(rt, tables, halves, bytes, cells, n, i, count);
    }
}

// Reasons 9 and 12.
fn say_others(
    rt: &impl Print,
    tables: [&[u8]; TABLES],
    halves: &[u16],
    bytes: &[u8],
    cells: &[u16],
    n: usize,
    i: usize,
    reason: usize,
    count: usize,
) {
    say_reason(rt, reason);
    if reason == 9 {
        words(rt, b": ");
    } else {
        words(rt, b": by VALID next is ");
    }
    say_causes(rt, tables, halves, bytes, cells, n, i, count);
}

// Why row i isn't good, and what it leans on.
pub(crate) fn say_leans(
    rt: &impl Print,
    tables: [&[u8]; TABLES],
    halves: &[u16],
    bytes: &[u8],
    cells: &[u16],
    n: usize,
    i: usize,
) {
    let verdict = half_at(cells, i) as usize;
    let reason = verdict / 256;
    let column = verdict % 256;
    let count = count_causes(halves, bytes, cells, n, i);
    say_quoted(rt, tables, halves, bytes, i, text_column(reason, column));
    match reason {
        9 => say_others(rt, tables, halves, bytes, cells, n, i, reason, count),
        10 => say_count(rt, tables, halves, bytes, cells, n, i, count),
        11 => say_name(rt, tables, halves, bytes, cells, n, i, count),
        12 => {
            words(rt, b": ");
            say_others(rt, tables, halves, bytes, cells, n, i, reason, count);
        }
        6 | 13 => say_wrong(rt, tables, halves, bytes, i, reason, column),
        4 | 5 | 7 | 8 | 14 => {
            words(rt, b": ");
            say_reason(rt, reason);
        }
        _ => say_reason(rt, reason),
    }
}
