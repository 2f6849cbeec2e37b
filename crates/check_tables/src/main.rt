// Imports the tables of directories, and says of each row that isn't good why, and what it leans on.
#![tactic(auto)]

mod counts;

use arrays::PLACES;
use counts::say_counts;
use directories::{SPACE, directory_error, load_directory, tables_in};
use files::arguments::{LONGEST, count, say_argument};
use judged::judge_kept;
use kept::{BYTES, HALVES, KeepError, LINKS, WORDS, keep};
use leaning::say_row;
use row_order::{order_rows, row_in};
use std::env::Env;
use std::rt::Files;
use tables::{SizeError, TABLES};
use words::refusals::say_refused;
use words::say::words;

fn say_usage(rt: &impl Print) {
    words(rt, b"usage: check_tables DIR ..\n");
}

// How the program is called, and what it prints.
fn say_help(rt: &impl Print) {
    say_usage(rt);
    words(
        rt,
        b"Each DIR has pid.dat, pic.dat, plf.dat, pcf.dat, caf.dat, cap.dat, txf.dat, txp.dat, ocf.dat, ocp.dat and mcf.dat.\n",
    );
    words(
        rt,
        b"A line is printed for each row that is not good, a cause before what leans on it: first rows of reasons 1 to 8, 13\n",
    );
    words(
        rt,
        b"and 14, then those of reasons 9, 10 and 12, then those of reason 11, each after the row that it names.\n",
    );
}

// Says the rows that aren't good, in the order in which they are told.
fn say_rows(
    rt: &impl Print,
    tables: [&[u8]; TABLES],
    halves: &[u16],
    bytes: &[u8],
    cells: &[u16],
    n: usize,
    order: &[usize],
    count: usize,
) {
    for k in 0..count {
        say_row(rt, tables, halves, bytes, cells, n, row_in(order, k));
    }
}

// The rows that are kept are judged, and what their verdicts lean on is said.
fn judge(
    rt: &impl Print,
    tables: [&[u8]; TABLES],
    halves: &[u16; HALVES],
    bytes: &[u8; BYTES],
    rows: usize,
    cells: &mut [u16; PLACES],
    order: &mut [usize; PLACES],
) {
    judge_kept(halves, bytes, cells, rows);
    let count = order_rows(halves, bytes, cells, rows, order);
    say_rows(rt, tables, halves, bytes, cells, rows, order, count);
    say_counts(rt, cells, rows);
}

fn judge_rows(
    rt: &impl Print,
    tables: [&[u8]; TABLES],
    halves: &[u16; HALVES],
    bytes: &[u8; BYTES],
    rows: usize,
) {
    let mut cells = [0u16; PLACES];
    let mut order = [0usize; PLACES];
    judge(rt, tables, halves, bytes, rows, &mut cells, &mut order);
}

// The arrays are lent at their full size.
fn check_by(
    rt: &impl Print,
    tables: [&[u8]; TABLES],
    symbols: &mut [u64; WORDS],
    links: &mut [u16; LINKS],
    halves: &mut [u16; HALVES],
    bytes: &mut [u8; BYTES],
) {
    match keep(tables, symbols, links, halves, bytes) {
        Ok(kept) => judge_rows(rt, tables, halves, bytes, kept.rows),
        Err(KeepError::Sizes(SizeError::TooLong(table))) => say_refused(rt, 1, table.0),
        Err(KeepError::Sizes(SizeError::TooManyRows(table))) => say_refused(rt, 2, table.0),
        Err(KeepError::NoRoom) => say_refused(rt, 3, 0),
    }
}

fn check_tables(rt: &impl Print, tables: [&[u8]; TABLES]) {
    let mut symbols = [0u64; WORDS];
    let mut links = [0u16; LINKS];
    let mut halves = [0u16; HALVES];
    let mut bytes = [0u8; BYTES];
    check_by(
        rt,
        tables,
        &mut symbols,
        &mut links,
        &mut halves,
        &mut bytes,
    );
}

fn check_space(rt: &impl Print, space: &[u8], ends: [usize; TABLES]) {
    check_tables(rt, tables_in(space, ends));
}

// Where there is no such directory, a hint follows the line that says so.
fn check_lent(rt: &(impl Print + Files), directory: &[u8], space: &mut [u8; SPACE]) {
    let loaded = load_directory(rt, directory, space);
    let ends = loaded.ends;
    if loaded.whole {
        check_space(rt, space, ends);
        return;
    }
    if directory_error(rt, directory).is_some() {
        say_usage(rt);
    }
}

fn check_directory(rt: &(impl Print + Files), directory: &[u8]) {
    let mut space = [0u8; SPACE];
    check_lent(rt, directory, &mut space);
}

fn check_argument(rt: &(impl Print + Files + Env), k: usize) {
    let mut directory = [0u8; LONGEST];
    let Ok(length) = rt.arg(k, &mut directory) else {
        words(rt, b"the name of the directory is too long\n");
        say_usage(rt);
        return;
    };
    check_directory(rt, &directory[..length]);
}

// The arguments after the program's name, each named where there are several.
fn check_arguments(rt: &(impl Print + Files + Env), count: usize) {
    for k in 1..count {
        if 2 < count {
            say_argument(rt, k);
        }
        check_argument(rt, k);
    }
}

fn main(rt: HostRuntime) {
    let count = count(&rt);
    if count < 2 {
        say_help(&rt);
        return;
    }
    check_arguments(&rt, count);
}
