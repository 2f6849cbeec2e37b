// A line under a question, compared with the answer.
ghost use Rattle.std.specs.Prelude.{◌≡◌};
ghost use Rattle.comparing.specs.Compared.{verdict_of};

use crate::difference::say_difference;
use answers::answer::Answer;
use spoken::spelling::agrees;

#[derive(Clone, Copy)]
pub enum Verdict {
    // The question can't be read.
    Unread,
    Same,
    Differs,
}

// An answer that differs is said, with the file's name and the line's number.
pub fn compare(
    rt: &impl Print,
    name: &[u8],
    number: usize,
    line: &[u8],
    answer: Answer,
    txp: &[u8],
    cells: &[u16],
    positions: &[u16],
) -> Verdict
    ensures { result ≡ verdict_of answer txp.now cells.now positions.now line.now }
{
    if !answer.readable {
        return Verdict::Unread;
    }
    if agrees(line, answer, txp, cells, positions) {
        return Verdict::Same;
    }
    say_difference(rt, name, number, line, answer, txp, cells, positions);
    Verdict::Differs
}
