// What is said of a packet.
ghost use Rattle.std.specs.Prelude.{◌≡◌};
ghost use Rattle.showing.specs.Count.{sequence_count_in};
ghost use Rattle.showing.specs.Lines.{printed_line};

use accepting::step::Stepped;
use fields::field::read_unsigned;
use outcomes::{number_of, place_of};
use units::BitOffset;

// The packet's number, from 1, and its sequence count; the number and place of its refusal, 0 of one that is taken; and
// the state's run and announced.
#[derive(Clone, Copy)]
pub struct Line {
    pub number: usize,
    pub count: u64,
    pub refusal: u8,
    pub place: usize,
    pub run: u8,
    pub announced: u8,
}

// The sequence count in a packet's header, also in one that is refused.
pub fn count_of(packet: &[u8]) -> u64
    ensures { result ≡ sequence_count_in packet.now }
{
    match read_unsigned(packet, BitOffset(18), 14) {
        Ok(count) => count,
        Err(_) => 0,
    }
}

pub fn line_of(number: usize, count: u64, stepped: Stepped) -> Line
    ensures { result ≡ printed_line number count stepped }
{
    let answer = stepped.answer;
    let state = stepped.state;
    match answer {
        Ok(()) => Line {
            number,
            count,
            refusal: 0,
            place: 0,
            run: state.run,
            announced: state.announced,
        },
        Err(refusal) => Line {
            number,
            count,
            refusal: number_of(refusal),
            place: place_of(refusal),
            run: state.run,
            announced: state.announced,
        },
    }
}
