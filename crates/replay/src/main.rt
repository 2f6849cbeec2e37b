// Offers the packets of an archive, one after the other, to the limit step of a parameter.
#![tactic(auto)]

mod options;

ghost use Rattle.directories.specs.Space.{DirectoryInto};

use archive_replay::loaded::replay_tables;
use directories::{Loaded, SPACE, load_directory, tables_in};
use files::arguments::{LONGEST, count};
use lines::columns::part;
use options::chosen;
use showing::stretches::Showing;
use std::env::{Env, FillError};
use std::rt::Files;
use tables::TABLES;
use words::say::words;

fn say_usage(rt: &impl Print) {
    words(rt, b"usage: replay DIR NAME FILE [runs | last]\n");
    words(
        rt,
        b"  DIR   a directory with the tables pid.dat to mcf.dat\n",
    );
    words(rt, b"  NAME  the parameter whose limits are checked\n");
    words(rt, b"  FILE  packets end to end, as an archive has them\n");
    words(
        rt,
        b"  runs  one line for packets in a row with the same answer, not one for each\n",
    );
    words(rt, b"  last  the last state alone\n");
}

// The tables are read into a lent space.
fn load_in(rt: &(impl Print + Files), directory: &[u8], space: &mut [u8; SPACE]) -> Loaded
    ensures { DirectoryInto result space.old space.new }
{
    load_directory(rt, directory, space)
}

fn replay_space(
    rt: &(impl Print + Eprint + Files),
    space: &[u8; SPACE],
    ends: [usize; TABLES],
    name: &[u8],
    file: &[u8],
    showing: Showing,
) {
    replay_tables(rt, tables_in(space, ends), name, file, showing);
}

fn replay(
    rt: &(impl Print + Eprint + Files),
    directory: &[u8],
    name: &[u8],
    file: &[u8],
    showing: Showing,
) {
    let mut space = [0u8; SPACE];
    let loaded = load_in(rt, directory, &mut space);
    let ends = loaded.ends;
    if loaded.whole {
        replay_space(rt, &space, ends, name, file, showing);
    }
}

// Whether the argument that was asked for is too long; if so it is said.
fn is_too_long(rt: &impl Print, asked: Result<usize, FillError>) -> bool {
    if asked.is_ok() {
        return false;
    }
    words(rt, b"an argument is over 4,096 bytes long\n");
    true
}

// The first three arguments, each read into a lent array.
fn replay_named(
    rt: &(impl Print + Eprint + Files + Env),
    directory: &mut [u8; LONGEST],
    name: &mut [u8; LONGEST],
    file: &mut [u8; LONGEST],
    showing: Showing,
) {
    let directory_asked = rt.arg(1, directory);
    if is_too_long(rt, directory_asked) {
        return;
    }
    let directory_length = directory_asked.unwrap_or(0);
    let name_asked = rt.arg(2, name);
    if is_too_long(rt, name_asked) {
        return;
    }
    let name_length = name_asked.unwrap_or(0);
    let file_asked = rt.arg(3, file);
    if is_too_long(rt, file_asked) {
        return;
    }
    let file_length = file_asked.unwrap_or(0);
    replay(
        rt,
        part(directory, 0, directory_length),
        part(name, 0, name_length),
        part(file, 0, file_length),
        showing,
    );
}

fn replay_as(rt: &(impl Print + Eprint + Files + Env), showing: Showing) {
    let mut directory = [0u8; LONGEST];
    let mut name = [0u8; LONGEST];
    let mut file = [0u8; LONGEST];
    replay_named(rt, &mut directory, &mut name, &mut file, showing);
}

// The fourth.
fn replay_by_option(rt: &(impl Print + Eprint + Files + Env), option: &mut [u8; LONGEST]) {
    let asked = rt.arg(4, option);
    if is_too_long(rt, asked) {
        return;
    }
    let length = asked.unwrap_or(0);
    match chosen(part(option, 0, length)) {
        Some(showing) => replay_as(rt, showing),
        None => {
            words(rt, part(option, 0, length));
            words(rt, b": there is no such option\n");
            say_usage(rt);
        }
    }
}

fn main(rt: HostRuntime) {
    let mut option = [0u8; LONGEST];
    match count(&rt) {
        4 => replay_as(&rt, Showing::Each),
        5 => replay_by_option(&rt, &mut option),
        _ => say_usage(&rt),
    }
}
