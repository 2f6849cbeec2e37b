// The packets that stand end to end in bytes, each offered to the limit step of a parameter over loaded tables.
#![tactic(auto)]

ghost use Rattle.std.specs.Prelude.{◌≡◌, map};
ghost use Rattle.database.specs.Arrays.{database, answers};
ghost use Rattle.accepting.specs.Accepted.{state_after};
ghost use Rattle.stepping.specs.Step.{step_in};
ghost use Rattle.playing.specs.Plays.{fresh_state, capped_sum, Plays};

use archives::packet_at;
use limit_state::state::LimitState;
use lines::columns::part;
use showing::packet_lines::Line;
use showing::say::say_progress;
use showing::stretches::{Showing, Stretch, show};
use stepping::step::step_in;
use tables::TABLES;

// The state after so many packets, and the stretch of packets that is still to be said.
#[derive(Clone, Copy)]
pub struct Replay {
    pub state: LimitState,
    pub packets: usize,
    pub stretch: Stretch,
}

// The same, and where the bytes begin that are left over.
#[derive(Clone, Copy)]
pub struct Played {
    pub replay: Replay,
    pub used: usize,
}

// 01's fresh state, no packet offered.
pub fn fresh_replay() -> Replay
    ensures { (result.state ≡ fresh_state) × (result.packets ≡ 0) }
{
    let none = Line {
        number: 0,
        count: 0,
        refusal: 0,
        place: 0,
        run: 0,
        announced: 0,
    };
    Replay {
        state: LimitState {
            fresh: true,
            apid: 0,
            count: 0,
            run: 0,
            announced: 0,
        },
        packets: 0,
        stretch: Stretch {
            first: none,
            last: none,
        },
    }
}

// One packet more.
fn next_number(packets: usize) -> usize
    ensures { result ≡ capped_sum packets 1 }
{
    if packets == usize::MAX {
        return packets;
    }
    packets + 1
}

// Offers a packet, and says of it what is to be said.
fn offer(
    rt: &(impl Print + Eprint),
    tables: [&[u8]; TABLES],
    words: &[u64],
    links: &[u16],
    columns: &[u16],
    name: &[u8],
    packet: &[u8],
    showing: Showing,
    begun: Replay,
) -> Replay
    ensures state_value { result.state ≡ state_after begun.state
        (step_in (answers (database (map (λ x. x.now) tables.entry) words.now links.now columns.now))
        packet.now name.now begun.state) }
    ensures packets_value { result.packets ≡ capped_sum begun.packets 1 }
{
    let state = begun.state;
    let stretch = begun.stretch;
    let stepped = step_in(tables, words, links, columns, packet, name, state);
    let number = next_number(begun.packets);
    let after = show(rt, showing, stretch, number, packet, stepped);
    say_progress(rt, number);
    let state = stepped.state;
    Replay {
        state,
        packets: number,
        stretch: after,
    }
}

// Offers each packet of the bytes in its turn, up to the first that is not there to its end.
pub fn play(
    rt: &(impl Print + Eprint),
    tables: [&[u8]; TABLES],
    words: &[u64],
    links: &[u16],
    columns: &[u16],
    name: &[u8],
    bytes: &[u8],
    showing: Showing,
    begun: Replay,
) -> Played
    ensures { Plays (answers (database (map (λ x. x.now) tables.entry) words.now links.now columns.now))
        name.now begun bytes.now result.replay result.used }
{
    let mut replay = begun;
    let mut at = 0;
    while let Some(end) = packet_at(bytes, at) {
        let packet = part(bytes, at, end);
        replay = offer(
            rt, tables, words, links, columns, name, packet, showing, replay,
        );
        at = end;
    }
    Played { replay, used: at }
}
