// Stretches of packets with the same answer.
ghost use Rattle.std.specs.Prelude.{◌≡◌};
ghost use Rattle.showing.specs.Stretches.{extended, shown, joins as joinsTo};

use crate::packet_lines::{Line, count_of, line_of};
use crate::say::{say_line, say_stretch};
use accepting::step::Stepped;

// How packets are said: a line for each, one for each stretch, or none.
#[derive(Clone, Copy)]
pub enum Showing {
    Each,
    Runs,
    Last,
}

// The first packet and the last; there is none while the first has number 0.
#[derive(Clone, Copy)]
pub struct Stretch {
    pub first: Line,
    pub last: Line,
}

// Whether the next packet has the same answer.
fn joins(last: Line, next: Line) -> bool
    ensures { result ≡ joinsTo last next }
{
    if last.refusal != next.refusal {
        return false;
    }
    if last.place != next.place {
        return false;
    }
    if last.announced != next.announced {
        return false;
    }
    last.run <= next.run
}

// The stretch that is open after this packet. One that ends before it is said.
pub fn extend(rt: &impl Print, stretch: Stretch, line: Line) -> Stretch
    ensures { result ≡ extended stretch line }
{
    let first = stretch.first;
    if first.number == 0 {
        return Stretch {
            first: line,
            last: line,
        };
    }
    let last = stretch.last;
    if joins(last, line) {
        return Stretch { first, last: line };
    }
    say_stretch(rt, first, last);
    Stretch {
        first: line,
        last: line,
    }
}

// What is said of the packet with this number, from 1, and the stretch that is open after it.
pub fn show(
    rt: &impl Print,
    showing: Showing,
    stretch: Stretch,
    number: usize,
    packet: &[u8],
    stepped: Stepped,
) -> Stretch
    ensures { result ≡ shown showing stretch number packet.now stepped }
{
    match showing {
        Showing::Each => {
            say_line(rt, line_of(number, count_of(packet), stepped));
            stretch
        }
        Showing::Runs => extend(rt, stretch, line_of(number, count_of(packet), stepped)),
        Showing::Last => stretch,
    }
}

// At the end the stretch that is still open is said.
pub fn close(rt: &impl Print, stretch: Stretch) {
    let first = stretch.first;
    let last = stretch.last;
    if first.number != 0 {
        say_stretch(rt, first, last);
    }
}
