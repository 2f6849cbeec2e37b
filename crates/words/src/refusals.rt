// The refusals of a call in words.
use crate::say;
use crate::say::words;
use table_names::table_name;
use units::TableNumber;

// Those of a call with tables and packets.
fn say_early(rt: &impl Print, refusal: usize) {
    match refusal {
        1 => words(rt, b"the table is over 65,536 bytes long"),
        2 => words(rt, b"the table has over 1,024 rows"),
        3 => words(rt, b"there are fewer cells or positions than rows"),
        20 => words(rt, b"the packet is under 7 or over 8,192 bytes long"),
        21 => words(rt, b"the version is not 0, or the type bit is set"),
        22 => words(rt, b"the length field plus 7 is not the packet's length"),
        23 => words(
            rt,
            b"a data field header is flagged, and the packet is under 9 bytes long",
        ),
        24 => words(rt, b"an identification field leaves the packet"),
        25 => words(rt, b"no good pid row with VALID Y is that of the packet"),
        _ => words(rt, b"no such refusal"),
    }
}

pub fn say_refusal(rt: &impl Print, refusal: usize) {
    match refusal {
        26 => words(rt, b"no good plf row has this name and SPID"),
        27 => words(rt, b"the occurrence is not below NBOCC"),
        28 => words(rt, b"a bit of the field lies outside the packet"),
        29 => words(rt, b"the string does not start on a byte"),
        30 => words(rt, b"the raw value is off the curve, which is not extended"),
        31 => words(rt, b"the curve's result is out of range"),
        32 => words(rt, b"no text is given for the raw value"),
        33 => words(rt, b"no good ocf row has this name"),
        34 => words(rt, b"this is no limit state"),
        35 => words(rt, b"the packet is not newer than the last"),
        36 => words(rt, b"the packet is of another APID"),
        _ => say_early(rt, refusal),
    }
}

// Where a refusal has a place: its table, from 1, or the byte in which its field starts.
fn say_place(rt: &impl Print, refusal: usize, place: usize) {
    match refusal {
        1 | 2 => {
            words(rt, b" at table ");
            say::number(rt, place);
            words(rt, b" (");
            say::name(rt, table_name(TableNumber(place)));
            words(rt, b")");
        }
        24 | 28 | 29 => {
            words(rt, b" at byte ");
            say::number(rt, place);
        }
        _ => words(rt, b""),
    }
}

// A line for a refusal by its number and place.
pub fn say_refused(rt: &impl Print, refusal: usize, place: usize) {
    words(rt, b"refused ");
    say::number(rt, refusal);
    say_place(rt, refusal, place);
    words(rt, b": ");
    say_refusal(rt, refusal);
    words(rt, b"\n");
}
