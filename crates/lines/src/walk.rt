// The lines of a table, one after the other, with nothing copied.
ghost use Rattle.std.specs.Prelude.{◌≡◌, ◌+◌, drop};
ghost use Rattle.lines.specs.Lines.{line_length, next_line};

const LINE_FEED: u8 = 10;

// A line: one past its last byte, whether a line feed ends it, and where the next line starts.
#[derive(Clone, Copy)]
pub struct NextLine {
    pub end: usize,
    pub ended: bool,
    pub next: usize,
}

// The place of the first line feed from `from` on, or where the table ends.
fn line_end(table: &[u8], from: usize) -> usize
    ensures { result ≡ from + line_length (drop from table.now) }
{
    let mut i = from;
    while i < table.len() {
        if table[i] == LINE_FEED {
            return i;
        }
        i += 1;
    }
    i
}

// The line that starts at `from`.
pub fn next_line(table: &[u8], from: usize) -> NextLine
    ensures { result ≡ next_line table.now from }
{
    let end = line_end(table, from);
    if end < table.len() {
        NextLine {
            end,
            ended: true,
            next: end + 1,
        }
    } else {
        NextLine {
            end,
            ended: false,
            next: end,
        }
    }
}
