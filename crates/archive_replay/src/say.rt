// What is said at the end of a file.
use replaying::Standing;
use showing::say::{say_empty, say_last, say_left, say_unread};
use showing::stretches::close;
use std::io::ErrorKind;

// That it was not read on, that it is empty, or that it ends within a packet.
fn say_rest(
    rt: &impl Print,
    file: &[u8],
    packets: usize,
    from: usize,
    to: usize,
    error: Option<ErrorKind>,
) {
    if let Some(error) = error {
        say_unread(rt, file, error);
        return;
    }
    if from < to {
        say_left(rt, packets, to - from);
        return;
    }
    if packets == 0 {
        say_empty(rt, file);
    }
}

pub(crate) fn say_end(rt: &impl Print, file: &[u8], standing: Standing, error: Option<ErrorKind>) {
    let replay = standing.replay;
    let stretch = replay.stretch;
    let state = replay.state;
    close(rt, stretch);
    say_rest(rt, file, replay.packets, standing.from, standing.to, error);
    say_last(rt, replay.packets, state);
}
