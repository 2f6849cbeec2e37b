// The first word of a line, and which word of a list it is.
ghost use Rattle.std.specs.Prelude.{◌≡◌, ◌≤◌, length};
ghost use Rattle.lines.specs.Columns.{columns_of};
ghost use Rattle.scripts.specs.Words.{upto, word_of, after_word, word_place, setting_of, question_of};

use crate::operands::{column_at, column_count};
use lines::columns::part;
use name_bytes::{name_of, same_name};

// Where a byte first stands, or where the text ends.
pub fn find_byte(text: &[u8], byte: u8) -> usize
    ensures { (result ≡ upto byte text.now) × (result ≤ length text.now) }
{
    let mut i: usize = 0;
    while i < text.len() {
        if text[i] == byte {
            return i;
        }
        i += 1;
    }
    i
}

pub fn word_of<'a>(line: &'a [u8]) -> &'a [u8]
    ensures { result.now ≡ word_of line.now }
{
    part(line, 0, find_byte(line, b' '))
}

// What follows the first word and its space.
pub fn text_of<'a>(line: &'a [u8]) -> &'a [u8]
    ensures { result.now ≡ after_word line.now }
{
    let end = find_byte(line, b' ');
    if end < line.len() {
        return part(line, end + 1, line.len());
    }
    &line[..0]
}

// The place of a word in a list divided by TAB, or how many words the list has.
fn place_in(list: &[u8], word: &[u8]) -> usize
    ensures { result ≡ word_place word.now (columns_of list.now) }
{
    let count = column_count(list);
    let name = name_of(word);
    let mut k: usize = 0;
    while k < count {
        if same_name(name_of(column_at(list, k)), name) {
            return k;
        }
        k += 1;
    }
    k
}

// The tables in the specification's order, the packet, and the other lines that set something;
// their number for no such word.
pub fn setting_of(word: &[u8]) -> usize
    ensures { result ≡ setting_of word.now }
{
    place_in(
        b"pid\tpic\tplf\tpcf\tcaf\tcap\ttxf\ttxp\tocf\tocp\tmcf\tpacket\tpacket+\tfill\tclear\tstate",
        word,
    )
}

// How many questions there are.
pub const QUESTIONS: usize = 14;

// The questions; their number for no such word.
pub fn question_of(word: &[u8]) -> usize
    ensures { result ≡ question_of word.now }
{
    place_in(
        b"import\trow\tidentify\textract\tengineer\tstep\tnumber\twidth\tunsigned\tsigned\tstring\tline\tsearch\tindex",
        word,
    )
}
