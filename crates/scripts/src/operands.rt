// The numbers that a question or a setting names.
ghost use Rattle.std.specs.Prelude.{◌≡◌, ◌+◌, length, drop};
ghost use Rattle.lines.specs.Columns.{tab, columns_of, column_at};
ghost use Rattle.scripts.specs.Words.{upto};
ghost use Rattle.scripts.specs.Numerals.{natural_in, at_most, integer_text};

use crate::verb::find_byte;
use curves::ints::{less, size};
use lines::columns::{MOST_COLUMNS, part, scan};
use numbers::{NumberError, read_number};

// One of 2^60 or more stands for 2^64 - 1.
pub fn natural_in(text: &[u8]) -> Option<u64>
    ensures { result ≡ natural_in text.now }
{
    match read_number(text) {
        Ok(v) => {
            if less(v, 0) {
                return None;
            }
            Some(size(v))
        }
        Err(NumberError::NotNumber) => None,
        Err(NumberError::Beyond) => Some(18446744073709551615),
    }
}

// The same where it is at most so much.
pub fn natural_to(most: u64, text: &[u8]) -> Option<u64>
    ensures { result ≡ at_most most (natural_in text.now) }
{
    let n = natural_in(text)?;
    if n <= most {
        return Some(n);
    }
    None
}

// One of 2^60 or more in magnitude stands for 2^60, which is in no column's range.
fn integer_in(text: &[u8]) -> Option<i64>
    ensures { result ≡ integer_text text.now }
{
    match read_number(text) {
        Ok(v) => Some(v),
        Err(NumberError::NotNumber) => None,
        Err(NumberError::Beyond) => Some(1152921504606846976),
    }
}

// How many columns a text has.
pub fn column_count(text: &[u8]) -> usize
    ensures { result ≡ length (columns_of text.now) }
{
    let mut ends: [usize; MOST_COLUMNS] = [0; MOST_COLUMNS];
    let walk = scan(text, 0, false, &mut ends);
    walk.count
}

// Where the column that starts at a place ends.
fn column_end(text: &[u8], start: usize) -> usize
    ensures { result ≡ start + upto tab (drop start text.now) }
{
    start + find_byte(part(text, start, text.len()), 9)
}

// A column by its place, from 0; one that isn't there is empty.
pub fn column_at<'a>(text: &'a [u8], k: usize) -> &'a [u8]
    ensures { result.now ≡ column_at (columns_of text.now) k }
{
    let mut start: usize = 0;
    for i in 0..k {
        let end = column_end(text, start);
        if text.len() <= end {
            return &text[..0];
        }
        start = end + 1;
    }
    part(text, start, column_end(text, start))
}

pub fn natural_at(most: u64, text: &[u8], k: usize) -> Option<u64>
    ensures { result ≡ at_most most (natural_in (column_at (columns_of text.now) k)) }
{
    natural_to(most, column_at(text, k))
}

pub fn integer_at(text: &[u8], k: usize) -> Option<i64>
    ensures { result ≡ integer_text (column_at (columns_of text.now) k) }
{
    integer_in(column_at(text, k))
}
