// Asks the questions of vector files, and says which answers differ from those that stand under them.
// docs/VECTORS.md has the format.
#![tactic(auto)]

mod totals;

ghost use Rattle.std.specs.Prelude.{◌≡◌, replicate};
ghost use Rattle.areas.specs.Memory.{space_size};
ghost use Rattle.running.specs.Script.{tally_of};
ghost use Rattle.vectors.specs.Files.{unread_file, OfFile};

use areas::SPACE;
use files::arguments::{LONGEST, argument, count};
use files::errors::say_error;
use files::source::read_file;
use lines::columns::part;
use running::run;
use scripts::verb::QUESTIONS;
use std::env::Env;
use std::io::ErrorKind;
use std::rt::Files;
use tallies::{Tally, add_up};
use totals::say_totals;
use words::say::words;

// A vector file has at most so many bytes.
const MOST_TEXT: usize = 1048576;

// A file that can't be read whole counts as a line that can't.
fn unread_file() -> Tally
    ensures { result ≡ unread_file }
{
    Tally {
        asked: [0; QUESTIONS],
        differ: 0,
        unread: 1,
    }
}

fn say_failed(rt: &impl Print, name: &[u8], error: ErrorKind) {
    words(rt, name);
    words(rt, b": ");
    say_error(rt, error);
    words(rt, b"\n");
}

fn ask_text(rt: &impl Print, name: &[u8], text: &[u8]) -> Tally
    ensures { result ≡ tally_of (replicate space_size 0) text.now }
{
    let mut space = [0u8; SPACE];
    run(rt, name, text, &mut space)
}

// The tally of a file that is read into a buffer.
fn ask_into(rt: &(impl Print + Files), name: &[u8], buffer: &mut [u8; MOST_TEXT]) -> Tally
    ensures { OfFile result }
{
    let text: &mut [u8] = buffer;
    match read_file(rt, name, text) {
        Ok(Some(count)) => {
            if count < MOST_TEXT {
                return ask_text(rt, name, part(text, 0, count));
            }
            words(rt, name);
            words(rt, b": it is too long\n");
            unread_file()
        }
        Ok(None) => {
            say_failed(rt, name, ErrorKind::NotFound);
            unread_file()
        }
        Err(error) => {
            say_failed(rt, name, error);
            unread_file()
        }
    }
}

fn ask_file(rt: &(impl Print + Files), name: &[u8]) -> Tally
    ensures { OfFile result }
{
    let mut buffer = [0u8; MOST_TEXT];
    ask_into(rt, name, &mut buffer)
}

fn ask_argument(rt: &(impl Print + Files + Env), k: usize) -> Tally
    ensures { OfFile result }
{
    let mut name = [0u8; LONGEST];
    let length = argument(rt, k, &mut name);
    ask_file(rt, &name[..length])
}

fn main(rt: HostRuntime) {
    let count = count(&rt);
    let mut total = Tally {
        asked: [0; QUESTIONS],
        differ: 0,
        unread: 0,
    };
    for k in 1..count {
        total = add_up(total, ask_argument(&rt, k));
    }
    say_totals(&rt, total);
}
