// The tables of a directory: pid.dat and so on, each read into its own part of one space.
#![tactic(auto)]

ghost use Rattle.std.specs.Prelude.{◌≡◌, ◌&&◌, map};
ghost use Rattle.tables.specs.Parts.{tables_in};
ghost use Rattle.directories.specs.Space.{end_of};
ghost use Rattle.directories.specs.Space.{DirectoryInto, LoadedInto, TableInto, TableLoaded};

use files::errors::say_error;
use files::path::{MOST_PATH, table_path};
use files::source::{open_file, read_file};
use lines::columns::keep_at;
use std::io::{ErrorKind, Read};
use std::num::wrapping_add_usize;
use std::rt::Files;
use table_names::table_name;
use tables::{ROOM, TABLES};
use units::TableNumber;
use words::say;
use words::say::words;

// Nothing where an open file is a directory, else the error. Reading a directory fails, by which it is told from a file.
fn read_error(file: &mut impl Read) -> Option<ErrorKind> {
    let mut byte = [0u8; 1];
    match file.read(&mut byte) {
        Ok(_) => Some(ErrorKind::NotADirectory),
        Err(error) => match error.kind() {
            ErrorKind::IsADirectory => None,
            kind => Some(kind),
        },
    }
}

// Nothing where there is such a directory, else the system's error.
pub fn directory_error(rt: &impl Files, directory: &[u8]) -> Option<ErrorKind> {
    match open_file(rt, directory) {
        Ok(opened) => {
            let mut file = opened;
            read_error(&mut file)
        }
        Err(error) => Some(error),
    }
}

// A part for each table.
pub const SPACE: usize = TABLES * ROOM;

// Where each table ends in the space, and whether all were read. A table that isn't there ends at 0.
// No Option of ends: where one table was not read, the ends of the others are told all the same.
#[derive(Clone, Copy)]
pub struct Loaded {
    pub ends: [usize; TABLES],
    pub whole: bool,
}

fn say_file(rt: &impl Print, table: TableNumber) {
    say::name(rt, table_name(table));
    words(rt, b".dat: ");
}

fn say_missing(rt: &impl Print, table: TableNumber) {
    say_file(rt, table);
    words(rt, b"there is none, so the table is empty\n");
}

fn say_failed(rt: &impl Print, table: TableNumber, error: ErrorKind) {
    say_file(rt, table);
    say_error(rt, error);
    words(rt, b"\n");
}

// The table with this number, from 0, into its part of the space.
fn read_table(
    rt: &impl Files,
    directory: &[u8],
    t: usize,
    space: &mut [u8],
) -> Result<Option<usize>, ErrorKind>
    ensures { TableInto t result space.old space.new }
{
    if TABLES <= t {
        return Ok(None);
    }
    let from = t * ROOM;
    let to = from + ROOM;
    if space.len() < to {
        return Ok(None);
    }
    let mut path = [0u8; MOST_PATH];
    let length = table_path(directory, TableNumber(t + 1), &mut path);
    read_file(rt, &path[..length], &mut space[from..to])
}

// Where a table of so many bytes ends in the space.
fn end_of(t: usize, count: usize) -> usize
    ensures { result ≡ end_of t count }
{
    if TABLES <= t {
        return 0;
    }
    if ROOM < count {
        return 0;
    }
    t * ROOM + count
}

// Reads one table, and says where it isn't there or can't be read; answers whether it could.
fn load_table(
    rt: &(impl Print + Files),
    directory: &[u8],
    t: usize,
    space: &mut [u8],
    ends: &mut [usize; TABLES],
) -> bool
    ensures { TableLoaded t result space.old space.new ends.old ends.new }
{
    match read_table(rt, directory, t, space) {
        Ok(Some(count)) => {
            keep_at(ends, t, end_of(t, count));
            true
        }
        Ok(None) => {
            say_missing(rt, TableNumber(wrapping_add_usize(t, 1)));
            true
        }
        Err(error) => {
            say_failed(rt, TableNumber(wrapping_add_usize(t, 1)), error);
            false
        }
    }
}

fn both(a: bool, b: bool) -> bool
    ensures { result ≡ (a && b) }
{
    if a {
        return b;
    }
    false
}

// Reads the tables. A table for which the space has no room counts as missing.
pub fn load(rt: &(impl Print + Files), directory: &[u8], space: &mut [u8]) -> Loaded
    ensures { LoadedInto result space.old space.new }
{
    let mut ends = [0usize; TABLES];
    let mut whole = true;
    for t in 0..TABLES {
        let read = load_table(rt, directory, t, space, &mut ends);
        whole = both(whole, read);
    }
    Loaded { ends, whole }
}

// The same, and a line where there is no such directory, or a table was not read.
pub fn load_directory(rt: &(impl Print + Files), directory: &[u8], space: &mut [u8]) -> Loaded
    ensures { DirectoryInto result space.old space.new }
{
    if let Some(error) = directory_error(rt, directory) {
        words(rt, directory);
        words(rt, b": ");
        say_error(rt, error);
        words(rt, b"\n");
        return Loaded {
            ends: [0; TABLES],
            whole: false,
        };
    }
    let loaded = load(rt, directory, space);
    if !loaded.whole {
        words(rt, b"not imported, since a table was not read\n");
    }
    loaded
}

// The tables as they were read.
pub fn tables_in<'a>(space: &'a [u8], ends: [usize; TABLES]) -> [&'a [u8]; TABLES]
    ensures { map (λ x. x.now) result ≡ tables_in space.now ends }
{
    tables::tables_in(space, &ends)
}
