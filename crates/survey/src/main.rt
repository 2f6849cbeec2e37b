// Asks a question of every packet of an archive, on tables that are loaded once.
#![tactic(auto)]

mod archive;
mod directory;
mod loaded;
mod options;
mod say;

use directories::SPACE;
use directory::survey_directory;
use files::arguments::{LONGEST, count, is_too_long};
use options::chosen;
use std::env::Env;
use std::rt::Files;
use surveying::asking::Question;
use words::say::words;

fn say_usage(rt: &impl Print) {
    words(
        rt,
        b"usage: survey DIR NAME FILE (identify | extract | engineer)\n",
    );
    words(
        rt,
        b"  DIR   a directory with the tables pid.dat to mcf.dat\n  NAME  a parameter, of which occurrence 0 is asked for\n",
    );
    words(
        rt,
        b"  FILE  packets end to end, as an archive has them\nAn answer weighs its SPID, its value without sign, or where its text starts.\n",
    );
}

fn survey_in(
    rt: &(impl Print + Files),
    directory: &[u8],
    name: &[u8],
    file: &[u8],
    question: Question,
    space: &mut [u8; SPACE],
) {
    survey_directory(rt, directory, name, file, question, space);
}

fn survey(
    rt: &(impl Print + Files),
    directory: &[u8],
    name: &[u8],
    file: &[u8],
    question: Question,
) {
    let mut space = [0u8; SPACE];
    survey_in(rt, directory, name, file, question, &mut space);
}

// The first three arguments.
fn survey_as(rt: &(impl Print + Files + Env), question: Question) {
    let mut directory = [0u8; LONGEST];
    let mut name = [0u8; LONGEST];
    let mut file = [0u8; LONGEST];
    let directory_asked = rt.arg(1, &mut directory);
    if is_too_long(rt, directory_asked) {
        return;
    }
    let directory_length = directory_asked.unwrap_or(0);
    let name_asked = rt.arg(2, &mut name);
    if is_too_long(rt, name_asked) {
        return;
    }
    let name_length = name_asked.unwrap_or(0);
    let file_asked = rt.arg(3, &mut file);
    if is_too_long(rt, file_asked) {
        return;
    }
    let file_length = file_asked.unwrap_or(0);
    survey(
        rt,
        &directory[..directory_length],
        &name[..name_length],
        &file[..file_length],
        question,
    );
}

// The fourth.
fn survey_by_option(rt: &(impl Print + Files + Env)) {
    let mut option = [0u8; LONGEST];
    let asked = rt.arg(4, &mut option);
    if is_too_long(rt, asked) {
        return;
    }
    let length = asked.unwrap_or(0);
    match chosen(&option[..length]) {
        Some(question) => survey_as(rt, question),
        None => {
            words(rt, &option[..length]);
            words(rt, b": there is no such question\n");
            say_usage(rt);
        }
    }
}

fn main(rt: HostRuntime) {
    if count(&rt) == 5 {
        survey_by_option(&rt);
        return;
    }
    say_usage(&rt);
}
