// The columns of a line, divided in one walk.
ghost use Rattle.std.specs.Prelude.{◌≡◌, ◌&&◌, eqb, length, drop, set};
ghost use Rattle.std.proofs.lemmas.List.Edits.{sets};
ghost use Rattle.lines.specs.Lines.{line_feed};
ghost use Rattle.lines.specs.Columns.{printable, ends_of, divided, walked, scanned, part_of, column_in};
ghost use Rattle.lines.specs.Columns.{closed as closedAt};

// No table has more columns than this.
pub const MOST_COLUMNS: usize = 24;

const TAB: u8 = 9;

const LINE_FEED: u8 = 10;

// A line: one past its last byte, whether a line feed ends it, where the next line starts, how many columns it has, and
// whether a byte stands in it that may not.
#[derive(Clone, Copy)]
pub struct Scanned {
    pub end: usize,
    pub ended: bool,
    pub next: usize,
    pub count: usize,
    pub foreign: bool,
}

// Keeps a number at place k, where there is room.
pub fn keep_at(numbers: &mut [usize], k: usize, number: usize)
    ensures { numbers.new ≡ set numbers.old k number }
{
    if k < numbers.len() {
        numbers[k] = number;
    }
}

// Whether a byte is one of 0x20 to 0x7E.
fn is_printable(b: u8) -> bool
    ensures { result ≡ printable b }
{
    if 0x20 <= b {
        return b <= 0x7E;
    }
    false
}

fn is_end(feeds: bool, b: u8) -> bool
    ensures { result ≡ (feeds && eqb b line_feed) }
{
    if feeds {
        return b == LINE_FEED;
    }
    false
}

// What a walk over n columns tells that ended at a place of a text.
fn closed(text: &[u8], end: usize, count: usize, foreign: bool) -> Scanned
    ensures { result ≡ closedAt (length text.now) end count foreign }
{
    if end < text.len() {
        return Scanned {
            end,
            ended: true,
            next: end + 1,
            count,
            foreign,
        };
    }
    Scanned {
        end,
        ended: false,
        next: end,
        count,
        foreign,
    }
}

// One walk from a place on, to a line feed where these end lines. It keeps where each column ends,
// from the line's start.
pub fn scan(text: &[u8], from: usize, feeds: bool, ends: &mut [usize]) -> Scanned
    ensures value { result ≡ scanned feeds text.now from }
    ensures ends_after { ends.new ≡ sets ends.old 0 (ends_of (walked feeds (drop from text.now))) }
{
    let mut count: usize = 0;
    let mut foreign = false;
    let mut i = from;
    while i < text.len() {
        let b = text[i];
        if is_printable(b) {
            i += 1;
        } else if b == TAB {
            keep_at(ends, count, i - from);
            count += 1;
            i += 1;
        } else if is_end(feeds, b) {
            keep_at(ends, count, i - from);
            return closed(text, i, count + 1, foreign);
        } else {
            foreign = true;
            i += 1;
        }
    }
    keep_at(ends, count, i - from);
    closed(text, i, count + 1, foreign)
}

// Where the columns of a line end.
pub fn divide(line: &[u8]) -> [usize; MOST_COLUMNS]
    ensures { result ≡ divided line.now }
{
    let mut ends: [usize; MOST_COLUMNS] = [0; MOST_COLUMNS];
    scan(line, 0, false, &mut ends);
    ends
}

// The bytes of a line from `start` to before `end`, as far as the line has them.
pub fn part<'a>(line: &'a [u8], start: usize, end: usize) -> &'a [u8]
    ensures { result.now ≡ part_of line.now start end }
{
    if end <= line.len() {
        if start < end {
            return &line[start..end];
        }
        return &line[..0];
    }
    if start < line.len() {
        return &line[start..];
    }
    &line[..0]
}

// Column k, from 0, of a line whose columns end at these places.
pub fn column<'a>(line: &'a [u8], ends: &[usize], k: usize) -> &'a [u8]
    ensures { result.now ≡ column_in line.now ends.now k }
{
    if ends.len() <= k {
        return &line[..0];
    }
    if k == 0 {
        return part(line, 0, ends[0]);
    }
    let before = ends[k - 1];
    if line.len() <= before {
        return &line[..0];
    }
    part(line, before + 1, ends[k])
}
