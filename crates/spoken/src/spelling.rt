// Whether a line is an answer, byte by byte: a walk over both.
// A place past the line's end says that a byte was another.
ghost use Rattle.std.specs.Prelude.{◌≡◌, ◌++◌, get_or};
ghost use Rattle.laws.specs.Text.{ascii};
ghost use Rattle.name_bytes.specs.Names.{same_bytes};
ghost use Rattle.spoken.specs.Spoken.{spelled, sign_text, spoken, matched_all};

use crate::cells::match_cells;
use crate::decimal::match_decimal;
use crate::fit::{match_byte, match_text};
use answers::answer::Answer;
use lines::columns::part;
use string_fields::string_part;
use units::ByteOffset;

// The value at a place, 0 past the last.
pub fn value_at(values: [u64; 7], k: usize) -> u64
    ensures { result ≡ get_or values k 0 }
{
    if k < 7 {
        return values[k];
    }
    0
}

// The template with its numbers.
fn match_template(line: &[u8], from: usize, template: &[u8], values: [u64; 7]) -> usize
    ensures { result ≡ matched_all line.now from (spelled 0 template.now values) }
{
    let mut at = from;
    let mut i: usize = 0;
    let mut k: usize = 0;
    while i < template.len() {
        if template[i] == b'#' {
            at = match_decimal(line, at, value_at(values, k));
            k += 1;
            i += 1;
        } else {
            at = match_byte(line, at, template[i]);
            i += 1;
        }
    }
    at
}

fn match_sign(line: &[u8], at: usize, negative: bool) -> usize
    ensures { result ≡ matched_all line.now at (sign_text negative) }
{
    if negative {
        return match_byte(line, at, b'-');
    }
    at
}

// Whether a line is `= ` and the answer.
pub fn agrees(line: &[u8], answer: Answer, txp: &[u8], cells: &[u16], positions: &[u16]) -> bool
    ensures { result ≡ same_bytes (ascii "= " ++ spoken answer txp.now cells.now positions.now) line.now }
{
    let template = answer.template;
    let values = answer.values;
    let start = match_text(line, 0, b"= ");
    let after_sign = match_sign(line, start, answer.negative);
    let words = part(&template, 0, answer.length);
    let after_words = match_template(line, after_sign, words, values);
    let after_text = match_text(
        line,
        after_words,
        string_part(txp, ByteOffset(answer.from), answer.bytes),
    );
    match_cells(line, after_text, cells, positions, answer.cells) == line.len()
}
