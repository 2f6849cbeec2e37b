// The tables and the packet that questions are asked of, each in its own part of one space.
#![tactic(auto)]

ghost use Rattle.std.specs.Prelude.{◌≡◌, map, ◌+◌, ◌≤◌, length, get_or};
ghost use Rattle.std.proofs.lemmas.List.Edits.{sets};
ghost use Rattle.areas.specs.Memory.{memory, kept, area_within, area_tables, cleared, all_cleared, added};

use lines::columns::{keep_at, part};
use tables::{ROOM, TABLES};

// The tables' areas come first, and the packet's after them.
pub const PACKET: usize = TABLES;

pub const AREAS: usize = TABLES + 1;

// Room for each of them.
pub const SPACE: usize = AREAS * ROOM;

// The number at a place, 0 where there is none.
pub fn number_at(numbers: &[usize], k: usize) -> usize
    ensures { result ≡ get_or numbers.now k 0 }
{
    if k < numbers.len() {
        return numbers[k];
    }
    0
}

// The bytes of an area.
pub fn area_in<'a>(space: &'a [u8], ends: &[usize], t: usize) -> &'a [u8]
    ensures { result.now ≡ area_within (memory space.now ends.now) t }
{
    if AREAS <= t {
        return &space[..0];
    }
    part(space, t * ROOM, number_at(ends, t))
}

pub fn tables_in<'a>(space: &'a [u8], ends: &[usize]) -> [&'a [u8]; TABLES]
    ensures { map (λ x. x.now) result ≡ area_tables (memory space.now ends.now) }
{
    tables::tables_in(space, ends)
}

// Puts bytes into the space, the first at a place.
fn put(space: &mut [u8], at: usize, bytes: &[u8])
    requires { at + length bytes.now ≤ length space.old }
    ensures { space.new ≡ sets space.old at bytes.now }
{
    for i in 0..bytes.len() {
        space[at + i] = bytes[i];
    }
}

// Empties an area.
pub fn clear(ends: &mut [usize], t: usize)
    ensures { ends.new ≡ cleared ends.old t }
{
    if t < AREAS {
        keep_at(ends, t, t * ROOM);
    }
}

// Empties all of them.
pub fn clear_all(ends: &mut [usize])
    ensures { ends.new ≡ all_cleared ends.old }
{
    for t in 0..AREAS {
        clear(ends, t);
    }
}

// Adds bytes to an area, and answers whether they fit. What doesn't fit isn't added.
pub fn append(space: &mut [u8], ends: &mut [usize], t: usize, bytes: &[u8]) -> bool
    ensures { kept result space.new ends.new ≡ added (memory space.old ends.old) t bytes.now }
{
    if AREAS <= t {
        return false;
    }
    let limit = t * ROOM + ROOM;
    if space.len() < limit {
        return false;
    }
    let end = number_at(ends, t);
    if limit < end {
        return false;
    }
    if limit - end < bytes.len() {
        return false;
    }
    put(space, end, bytes);
    keep_at(ends, t, end + bytes.len());
    true
}
