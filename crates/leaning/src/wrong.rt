// Where the number of a row went wrong.
use key_texts::say_column_text;
use lines::columns::part;
use positions::position_at;
use tables::TABLES;
use words::reasons::say_reason;
use words::say;
use words::say::words;

// As many as stand before the last character that a position can be of.
const SPACES: [u8; 16] = *b"                ";

// A caret under a character, from 1, of a text that stands four places in.
fn say_caret(rt: &impl Print, position: usize) {
    words(rt, b"    ");
    if 0 < position {
        words(rt, part(&SPACES, 0, position - 1));
    }
    words(rt, b"^");
}

// Reasons 6 and 13: "a wrong digit at character 2", then the text again with a caret under that character.
pub(crate) fn say_wrong(
    rt: &impl Print,
    tables: [&[u8]; TABLES],
    halves: &[u16],
    bytes: &[u8],
    i: usize,
    reason: usize,
    column: usize,
) {
    let position = position_at(tables, halves, bytes, i) as usize;
    words(rt, b": ");
    say_reason(rt, reason);
    words(rt, b" at character ");
    say::number(rt, position);
    words(rt, b"\n    ");
    say_column_text(rt, tables, halves, bytes, i, column);
    words(rt, b"\n");
    say_caret(rt, position);
}
