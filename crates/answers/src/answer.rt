// An answer in words and numbers.
ghost use Rattle.std.specs.Prelude.{◌≡◌, ◌++◌, ◌≤◌, length, drop};
ghost use Rattle.answers.specs.Answers.{composed, saying, refusing, unreadable, words_answer, integer_answer};
ghost use Rattle.answers.specs.Answers.{one as one_of, two as twoOf};

use curves::ints::{less, size};
use lines::columns::part;

// A template in which `#` stands for the next number, the first with a minus if it is negative; then so many bytes of
// txp from a place on, and the first of an import's cells with their positions.
// `readable` says whether the question could be read.
#[derive(Clone, Copy)]
pub struct Answer {
    pub readable: bool,
    pub template: [u8; 64],
    pub length: usize,
    pub negative: bool,
    pub values: [u64; 7],
    pub from: usize,
    pub bytes: usize,
    pub cells: usize,
}

fn put(text: &[u8], to: &mut [u8])
    requires { length text.now ≤ length to.old }
    ensures { to.new ≡ text.now ++ drop (length text.now) to.old }
{
    for i in 0..text.len() {
        to[i] = text[i];
    }
}

// Of a text longer than 64 bytes, the first 64.
pub fn compose(
    text: &[u8],
    negative: bool,
    values: [u64; 7],
    from: usize,
    bytes: usize,
    cells: usize,
) -> Answer
    ensures { result ≡ composed text.now negative values from bytes cells }
{
    let words = part(text, 0, 64);
    let mut template = [0u8; 64];
    put(words, &mut template);
    Answer {
        readable: true,
        template,
        length: words.len(),
        negative,
        values,
        from,
        bytes,
        cells,
    }
}

// Words and numbers alone.
pub fn says(text: &[u8], negative: bool, values: [u64; 7]) -> Answer
    ensures { result ≡ saying text.now negative values }
{
    compose(text, negative, values, 0, 0, 0)
}

pub fn one(n: u64) -> [u64; 7]
    ensures { result ≡ one_of n }
{
    [n, 0, 0, 0, 0, 0, 0]
}

pub fn two(n: u64, m: u64) -> [u64; 7]
    ensures { result ≡ twoOf n m }
{
    [n, m, 0, 0, 0, 0, 0]
}

pub fn say_words(text: &[u8]) -> Answer
    ensures { result ≡ words_answer text.now }
{
    says(text, false, one(0))
}

// A number alone.
pub fn say_integer(v: i64) -> Answer
    ensures { result ≡ integer_answer v }
{
    says(b"#", less(v, 0), one(size(v)))
}

pub fn refused(number: u64, place: u64) -> Answer
    ensures { result ≡ refusing number place }
{
    says(b"refused # at #", false, [number, place, 0, 0, 0, 0, 0])
}

// The question can't be read.
pub fn unread() -> Answer
    ensures { result ≡ unreadable }
{
    Answer {
        readable: false,
        template: [0; 64],
        length: 0,
        negative: false,
        values: [0; 7],
        from: 0,
        bytes: 0,
        cells: 0,
    }
}
