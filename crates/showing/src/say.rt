// The lines of a replay.
use crate::packet_lines::Line;
use files::errors::say_error;
use limit_state::state::LimitState;
use std::io::ErrorKind;
use words::refusals::say_refused;
use words::say::{number, words};

// Progress is told each time that so many packets were offered.
const STEP: usize = 10000;

fn say_announced(rt: &impl Print, announced: u8) {
    match announced {
        0 => words(rt, b"within"),
        1 => words(rt, b"soft"),
        _ => words(rt, b"hard"),
    }
}

// "run 2, announced soft", or "run 3 to 14, announced soft"
fn say_runs(rt: &impl Print, first: u8, last: u8, announced: u8) {
    words(rt, b"run ");
    number(rt, first as usize);
    if first != last {
        words(rt, b" to ");
        number(rt, last as usize);
    }
    words(rt, b", announced ");
    say_announced(rt, announced);
    words(rt, b"\n");
}

// What a packet, or each of a stretch, was answered.
fn say_answer(rt: &impl Print, first: Line, last: Line) {
    if last.refusal == 0 {
        say_runs(rt, first.run, last.run, last.announced);
        return;
    }
    say_refused(rt, last.refusal as usize, last.place);
}

// "17: count 16383: " and the answer
pub fn say_line(rt: &impl Print, line: Line) {
    number(rt, line.number);
    words(rt, b": count ");
    number(rt, line.count as usize);
    words(rt, b": ");
    say_answer(rt, line, line);
}

// "121-180: count 16360 to 35: " and the answer; one packet is said as it is alone
pub fn say_stretch(rt: &impl Print, first: Line, last: Line) {
    if first.number == last.number {
        say_line(rt, last);
        return;
    }
    number(rt, first.number);
    words(rt, b"-");
    number(rt, last.number);
    words(rt, b": count ");
    number(rt, first.count as usize);
    words(rt, b" to ");
    number(rt, last.count as usize);
    words(rt, b": ");
    say_answer(rt, first, last);
}

// On standard error, so that a long archive is seen to go on.
pub fn say_progress(rt: &impl Eprint, packets: usize) {
    if packets % STEP != 0 {
        return;
    }
    let _ = eprintln!(rt; "{packets} packets");
}

// The packet behind so many is cut off.
pub fn say_left(rt: &impl Print, packets: usize, left: usize) {
    words(rt, b"the file ends within the packet after these ");
    number(rt, packets);
    words(rt, b", with ");
    number(rt, left);
    words(rt, b" bytes of it\n");
}

pub fn say_empty(rt: &impl Print, file: &[u8]) {
    words(rt, file);
    words(rt, b": it is empty\n");
}

pub fn say_last(rt: &impl Print, packets: usize, state: LimitState) {
    words(rt, b"after ");
    number(rt, packets);
    words(rt, b" packets: ");
    if state.fresh {
        words(rt, b"fresh, since no packet was taken\n");
        return;
    }
    words(rt, b"APID ");
    number(rt, state.apid as usize);
    words(rt, b", count ");
    number(rt, state.count as usize);
    words(rt, b", ");
    say_runs(rt, state.run, state.run, state.announced);
}

pub fn say_unread(rt: &impl Print, file: &[u8], error: ErrorKind) {
    words(rt, file);
    words(rt, b": ");
    say_error(rt, error);
    words(rt, b"\n");
}

// What is said of a file's end: that it was not read on, that it ends within a packet, or that it is empty.
pub fn say_rest(
    rt: &impl Print,
    file: &[u8],
    packets: usize,
    from: usize,
    to: usize,
    error: Option<ErrorKind>,
) {
    if let Some(error) = error {
        say_unread(rt, file, error);
        return;
    }
    if from < to {
        say_left(rt, packets, to - from);
        return;
    }
    if packets == 0 {
        say_empty(rt, file);
    }
}
