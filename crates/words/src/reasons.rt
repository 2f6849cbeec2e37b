// The reasons of a row's verdict in words.
use crate::say::words;

pub fn say_reason(rt: &impl Print, reason: usize) {
    match reason {
        1 => words(
            rt,
            b"the line is over 512 bytes long, or no line feed ends it",
        ),
        2 => words(rt, b"a byte is neither TAB nor from 0x20 to 0x7E"),
        3 => words(rt, b"the table has another number of columns"),
        4 => words(rt, b"the column is mandatory, and empty"),
        5 => words(rt, b"the column is too wide"),
        6 => words(rt, b"no digits"),
        7 => words(rt, b"the number is out of range"),
        8 => words(rt, b"this contradicts another column, or is not carried"),
        9 => words(rt, b"another row holds the same key"),
        10 => words(rt, b"the rows that this counts are another number"),
        11 => words(rt, b"no good row of the kind asked has this name"),
        12 => words(rt, b"the VALID chain returns to this row"),
        13 => words(rt, b"a wrong digit"),
        14 => words(rt, b"a letter not listed"),
        _ => words(rt, b"no such reason"),
    }
}
