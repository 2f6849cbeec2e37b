// The checks of a parameter that apply in a packet.
ghost use Rattle.std.specs.Prelude.{◌≡◌, map, ◌≤◌, length, take};
ghost use Rattle.laws.specs.Lists.{keep};
ghost use Rattle.decoding.specs.Records.{ocp_row};
ghost use Rattle.database.specs.Arrays.{database, row_at, answers};
ghost use Rattle.severity.specs.Checks.{check_of, checks_in};
ghost use Rattle.applying.specs.Checks as spec;
ghost use Rattle.checking.specs.Room.{Room};
ghost use Rattle.applying.specs.Checks.{applying};

use crate::parameter::Subject;
use applying::applies;
use database::{MOST_MEMBERS, list_members};
use found_rows::ocp_at;
use key_symbols::limits_key;
use severity::level_of;
use tables::TABLES;
use units::Spid;

// Of the ocp rows at these places LVALU, HVALU and the level of each that applies; how many these are.
fn fill_checks(
    tables: [&[u8]; TABLES],
    words: &[u64],
    links: &[u16],
    columns: &[u16],
    p: &[u8],
    spid: Spid,
    places: &[usize],
    lows: &mut [i64; MOST_MEMBERS],
    highs: &mut [i64; MOST_MEMBERS],
    levels: &mut [u8; MOST_MEMBERS],
) -> usize
    requires { (length places.now ≤ 1024) × Room lows.old highs.old levels.old }
    ensures levels_after { checks_in lows.new highs.new (take result levels.new)
        ≡ map check_of (keep (spec.applies (answers (database (map (λ x. x.now) tables.entry) words.now links.now columns.now))
        p.now spid.0) (map (λ i. ocp_row (row_at (map (λ x. x.now) tables.entry) columns.now i).bytes) places.now)) }
    ensures upper_bound { (result ≤ 1024) × Room lows.new highs.new levels.new }
{
    let mut n: usize = 0;
    let mut i: usize = 0;
    while i < places.len() {
        let place = places[i];
        let row = ocp_at(tables, columns, place);
        if applies(tables, words, links, columns, p, spid, row) {
            let low = row.lvalu;
            let high = row.hvalu;
            let check = row.check;
            lows[n] = low;
            highs[n] = high;
            levels[n] = level_of(check);
            n += 1;
            i += 1;
        } else {
            i += 1;
        }
    }
    n
}

// The checks of a parameter that apply in a packet of this SPID: the first of the arrays, as many as is answered.
pub(crate) fn gather_checks(
    tables: [&[u8]; TABLES],
    words: &[u64],
    links: &[u16],
    columns: &[u16],
    p: &[u8],
    subject: Subject,
    lows: &mut [i64; MOST_MEMBERS],
    highs: &mut [i64; MOST_MEMBERS],
    levels: &mut [u8; MOST_MEMBERS],
) -> usize
    requires { Room lows.old highs.old levels.old }
    ensures levels_after { checks_in lows.new highs.new (take result levels.new)
        ≡ applying (answers (database (map (λ x. x.now) tables.entry) words.now links.now columns.now))
        p.now subject.spid.0 subject.name }
    ensures upper_bound { (result ≤ 1024) × Room lows.new highs.new levels.new }
{
    let spid = subject.spid;
    let name = subject.name;
    let mut places = [0usize; MOST_MEMBERS];
    let members = list_members(words, links, columns, limits_key(name), &mut places);
    fill_checks(
        tables,
        words,
        links,
        columns,
        p,
        spid,
        &places[..members],
        lows,
        highs,
        levels,
    )
}
