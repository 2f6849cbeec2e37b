// The program's arguments.
ghost use Rattle.io.specs.Counts.{IsPrefixLen};

use std::env::{Env, FillError};
use words::say::words;

// An argument has at most so many bytes.
pub const LONGEST: usize = 4096;

// How many there are, the program's name among them.
pub fn count(rt: &impl Env) -> usize {
    for k in 0..usize::MAX {
        if let Err(FillError::NotPresent) = rt.arg(k, &mut []) {
            return k;
        }
    }
    usize::MAX
}

// Puts an argument at the start of the buffer, and answers its length; 0 of one that is missing or too long.
pub fn argument(rt: &impl Env, k: usize, text: &mut [u8]) -> usize
    ensures { IsPrefixLen result text.new }
{
    match rt.arg(k, text) {
        Ok(length) => length,
        Err(_) => 0,
    }
}

// A line with an argument, as a heading.
pub fn say_argument(rt: &(impl Print + Env), k: usize) {
    let mut text = [0u8; LONGEST];
    let count = argument(rt, k, &mut text);
    words(rt, &text[..count]);
    words(rt, b":\n");
}

// Whether the argument that was asked for is too long; if so it is said.
pub fn is_too_long(rt: &impl Print, asked: Result<usize, FillError>) -> bool {
    if asked.is_ok() {
        return false;
    }
    words(rt, b"an argument is over 4,096 bytes long\n");
    true
}
