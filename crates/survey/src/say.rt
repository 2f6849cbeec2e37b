// What is said at the end of a file.
use showing::say::say_rest;
use std::io::ErrorKind;
use std::num::wrapping_add_usize;
use surveying::archive::Standing;
use surveying::counting::Tally;
use words::say::{number, words};

fn say_tally(rt: &impl Print, tally: Tally) {
    number(rt, tally.answered);
    words(rt, b" answered, which weigh ");
    number(rt, tally.weight as usize);
    words(rt, b"\n");
}

pub(crate) fn say_end(rt: &impl Print, file: &[u8], standing: Standing, error: Option<ErrorKind>) {
    let tally = standing.tally;
    let packets = wrapping_add_usize(tally.answered, tally.refused);
    say_rest(rt, file, packets, standing.from, standing.to, error);
    say_tally(rt, tally);
}
