// The text of a row's column, as the table writes it.
#![tactic(auto)]

ghost use Rattle.std.specs.Prelude.{◌≡◌, map};
ghost use Rattle.std.proofs.lemmas.List.Edits.{sets};
ghost use Rattle.laws.specs.Values.{tabulate};
ghost use Rattle.key_texts.specs.Shown.{shown_as, shown_at, text_of, key_column};

use arrays::{byte_at, put_byte};
use judged::parts::{START, TABLE};
use key_rows::{byte, half};
use lines::columns::{MOST_COLUMNS, column, part, scan};
use tables::{TABLES, table_at};
use words::say::words;

// A text is shown up to so many bytes.
const SHOWN: usize = 64;

// The column of ocf that asks for CURTX of the row that NAME, column 1, names.
const INTER: usize = 4;

const NAME: usize = 1;

// A byte as it is shown: one that isn't from 0x20 to 0x7E is a question mark.
fn shown(b: u8) -> u8
    ensures { result ≡ shown_as b }
{
    if b < 0x20 {
        return b'?';
    }
    if 0x7E < b {
        return b'?';
    }
    b
}

// The first n bytes of a text as they are shown.
fn put_shown(text: &[u8], letters: &mut [u8], n: usize)
    ensures { letters.new ≡ sets letters.old 0 (tabulate (shown_at text.now) 0 n) }
{
    for k in 0..n {
        put_byte(letters, k, shown(byte_at(text, k)));
    }
}

// The start of a text.
fn say_text(rt: &impl Print, text: &[u8]) {
    let mut letters = [0u8; SHOWN];
    put_shown(text, &mut letters, SHOWN);
    if SHOWN < text.len() {
        words(rt, &letters);
        words(rt, b"..");
    } else {
        words(rt, part(&letters, 0, text.len()));
    }
}

// Column k of row i, from 1; nothing for column 0. Its line is walked once.
fn text_of<'a>(
    tables: [&'a [u8]; TABLES],
    halves: &[u16],
    bytes: &[u8],
    i: usize,
    k: usize,
) -> &'a [u8]
    ensures { result.now ≡ text_of (map (λ x. x.now) tables.entry) halves.now bytes.now i k }
{
    let table = table_at(tables, byte(bytes, TABLE, i) as usize);
    let start = half(halves, START, i) as usize;
    let mut ends = [0usize; MOST_COLUMNS];
    let walk = scan(table, start, true, &mut ends);
    let line = part(table, start, walk.end);
    if k == 0 {
        return part(line, 0, 0);
    }
    column(line, &ends, k - 1)
}

// Says it.
pub fn say_column_text(
    rt: &impl Print,
    tables: [&[u8]; TABLES],
    halves: &[u16],
    bytes: &[u8],
    i: usize,
    k: usize,
) {
    say_text(rt, text_of(tables, halves, bytes, i, k));
}

// In quotes, where there is one.
pub fn say_quoted(
    rt: &impl Print,
    tables: [&[u8]; TABLES],
    halves: &[u16],
    bytes: &[u8],
    i: usize,
    k: usize,
) {
    if 0 < k {
        words(rt, b"\"");
        say_column_text(rt, tables, halves, bytes, i, k);
        words(rt, b"\"");
    }
}

// The column whose text is told: the key that ocf names by INTER stands in NAME.
pub fn text_column(reason: usize, column: usize) -> usize
    ensures { result ≡ key_column reason column }
{
    if reason != 11 {
        return column;
    }
    if column == INTER {
        return NAME;
    }
    column
}
