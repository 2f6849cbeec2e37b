// Bytes expected at a place of a line, each of which moves the place on.
ghost use Rattle.std.specs.Prelude.{◌≡◌};
ghost use Rattle.spoken.specs.Spoken.{matched, matched_all};

// One byte more, or past the line's end where the line has another.
pub(crate) fn match_byte(line: &[u8], at: usize, byte: u8) -> usize
    ensures { result ≡ matched line.now at byte }
{
    if line.len() <= at {
        return line.len() + 1;
    }
    if line[at] == byte {
        return at + 1;
    }
    line.len() + 1
}

pub(crate) fn match_text(line: &[u8], from: usize, text: &[u8]) -> usize
    ensures { result ≡ matched_all line.now from text.now }
{
    let mut at = from;
    for i in 0..text.len() {
        at = match_byte(line, at, text[i]);
    }
    at
}
