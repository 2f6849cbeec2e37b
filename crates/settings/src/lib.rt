// The lines that set tables, the packet and the limit state.
#![tactic(auto)]

ghost use Rattle.std.specs.Prelude.{◌≡◌, [], ◌≤◌};
ghost use Rattle.lines.specs.Columns.{part_of};
ghost use Rattle.escapes.specs.Escapes.{read_in};
ghost use Rattle.areas.specs.Memory.{memory, kept, added};
ghost use Rattle.settings.specs.Settings.{setting_bytes, byte_in, add_fill, clear_named, set_area, state_text, settled, set_text, set_bytes, set_line};

use areas::{AREAS, PACKET, append, clear, clear_all};
use escapes::{ROOM, byte_of, read_hex, unescape, unescape_row};
use limit_state::state::LimitState;
use lines::columns::part;
use scripts::operands::{column_at, column_count, natural_at};
use scripts::verb::setting_of;

// The places of the words that follow `packet` in the list of settings, and how many words there are.
const PACKET_MORE: usize = PACKET + 1;

const FILL: usize = PACKET + 2;

const CLEAR: usize = PACKET + 3;

const STATE: usize = PACKET + 4;

pub const SETTINGS: usize = PACKET + 5;

// The limit state after a line, and whether the line could be read.
#[derive(Clone, Copy)]
pub struct SetLine {
    pub readable: bool,
    pub state: LimitState,
}

// The byte that a text of two digits is, or 256.
fn byte_in(text: &[u8]) -> usize
    ensures { (result ≡ byte_in text.now) × (result ≤ 256) }
{
    if text.len() == 2 {
        return byte_of(text[0], text[1]);
    }
    256
}

// Adds the first bytes of a run.
fn add_run(space: &mut [u8], ends: &mut [usize], t: usize, run: &[u8; ROOM], count: usize) -> bool
    ensures { kept result space.new ends.new
        ≡ added (memory space.old ends.old) t (part_of run.now 0 count) }
{
    append(space, ends, t, part(run, 0, count))
}

// PLACE|COUNT|BYTE
fn add_fill(space: &mut [u8], ends: &mut [usize], text: &[u8]) -> bool
    ensures { kept result space.new ends.new ≡ add_fill (memory space.old ends.old) text.now }
{
    if column_count(text) != 3 {
        return false;
    }
    let t = setting_of(column_at(text, 0));
    let byte = byte_in(column_at(text, 2));
    if 255 < byte {
        return false;
    }
    let Some(count) = natural_at(65537, text, 1) else {
        return false;
    };
    let run = [byte as u8; ROOM];
    add_run(space, ends, t, &run, count as usize)
}

// All areas, or the one that is named.
fn clear_named(ends: &mut [usize], name: &[u8]) -> bool
    ensures { kept result [] ends.new ≡ clear_named (memory [] ends.old) name.now }
{
    if name.len() == 0 {
        clear_all(ends);
        return true;
    }
    let t = setting_of(name);
    if t < AREAS {
        clear(ends, t);
        return true;
    }
    false
}

// FRESH|APID|COUNT|RUN|ANNOUNCED
fn state_in(text: &[u8], state: LimitState) -> SetLine
    ensures { result ≡ state_text state text.now }
{
    let none = SetLine {
        readable: false,
        state,
    };
    if column_count(text) != 5 {
        return none;
    }
    let Some(fresh) = natural_at(1, text, 0) else {
        return none;
    };
    let Some(apid) = natural_at(65535, text, 1) else {
        return none;
    };
    let Some(count) = natural_at(65535, text, 2) else {
        return none;
    };
    let Some(run) = natural_at(255, text, 3) else {
        return none;
    };
    let Some(announced) = natural_at(255, text, 4) else {
        return none;
    };
    SetLine {
        readable: true,
        state: LimitState {
            fresh: fresh == 1,
            apid: apid as u16,
            count: count as u16,
            run: run as u8,
            announced: announced as u8,
        },
    }
}

// The bytes of a line: a table's row, the digits of a packet, or a text.
fn setting_bytes(k: usize, raw: &[u8], out: &mut [u8; ROOM]) -> Option<usize>
    ensures { read_in result out.new ≡ setting_bytes k raw.now }
{
    if k < PACKET {
        return unescape_row(raw, out);
    }
    if k < FILL {
        return read_hex(raw, out);
    }
    unescape(raw, out)
}

// The tables and the packet after the bytes of a line.
fn set_area(k: usize, bytes: &[u8], space: &mut [u8], ends: &mut [usize]) -> bool
    ensures { kept result space.new ends.new ≡ set_area k (memory space.old ends.old) bytes.now }
{
    match k {
        PACKET => {
            clear(ends, PACKET);
            append(space, ends, PACKET, bytes)
        }
        PACKET_MORE => append(space, ends, PACKET, bytes),
        FILL => add_fill(space, ends, bytes),
        _ => append(space, ends, k, bytes),
    }
}

// All of it after the bytes of a line.
fn set_text(
    k: usize,
    text: &[u8],
    space: &mut [u8],
    ends: &mut [usize],
    state: LimitState,
) -> SetLine
    ensures { settled result.readable space.new ends.new result.state
        ≡ set_text k (memory space.old ends.old) state text.now }
{
    if k == STATE {
        return state_in(text, state);
    }
    SetLine {
        readable: set_area(k, text, space, ends),
        state,
    }
}

// The bytes are read into a lent array.
fn set_in(
    k: usize,
    raw: &[u8],
    space: &mut [u8],
    ends: &mut [usize],
    state: LimitState,
    out: &mut [u8; ROOM],
) -> SetLine
    ensures { settled result.readable space.new ends.new result.state
        ≡ set_bytes k (memory space.old ends.old) state (setting_bytes k raw.now) }
{
    match setting_bytes(k, raw, out) {
        Some(n) => set_text(k, part(out, 0, n), space, ends, state),
        None => SetLine {
            readable: false,
            state,
        },
    }
}

// The tables, the packet and the limit state after a line, by its number in the list of settings.
pub fn set_line(
    k: usize,
    raw: &[u8],
    space: &mut [u8],
    ends: &mut [usize],
    state: LimitState,
) -> SetLine
    ensures { settled result.readable space.new ends.new result.state
        ≡ set_line k (memory space.old ends.old) state raw.now }
{
    if k == CLEAR {
        return SetLine {
            readable: clear_named(ends, raw),
            state,
        };
    }
    let mut out = [0u8; ROOM];
    set_in(k, raw, space, ends, state, &mut out)
}
