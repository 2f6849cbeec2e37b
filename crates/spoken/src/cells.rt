// An import's cells at a place of a line: each after a space, `good` or reason and column, and its position.
ghost use Rattle.std.specs.Prelude.{◌≡◌, take};
ghost use Rattle.spoken.specs.Spoken.{cell_text, position_text, cells_text, matched_all};

use crate::decimal::match_decimal;
use crate::fit::{match_byte, match_text};

// Reason and column, which are a cell's two bytes.
fn match_cell(line: &[u8], at: usize, cell: u16) -> usize
    ensures { result ≡ matched_all line.now at (cell_text cell) }
{
    if cell == 0 {
        return match_text(line, at, b" good");
    }
    let after_space = match_byte(line, at, b' ');
    let after_reason = match_decimal(line, after_space, (cell / 256) as u64);
    let after_colon = match_byte(line, after_reason, b':');
    match_decimal(line, after_colon, (cell % 256) as u64)
}

// Nothing is said of a position that is 0.
fn match_position(line: &[u8], at: usize, position: u16) -> usize
    ensures { result ≡ matched_all line.now at (position_text position) }
{
    if position == 0 {
        return at;
    }
    let after_sign = match_byte(line, at, b'@');
    match_decimal(line, after_sign, position as u64)
}

// The first n cells with their positions.
pub(crate) fn match_cells(
    line: &[u8],
    from: usize,
    cells: &[u16],
    positions: &[u16],
    n: usize,
) -> usize
    ensures { result ≡ matched_all line.now from (cells_text (take n cells.now) positions.now) }
{
    let mut at = from;
    for i in 0..n {
        if cells.len() <= i {
            return at;
        }
        if positions.len() <= i {
            return at;
        }
        let after_cell = match_cell(line, at, cells[i]);
        at = match_position(line, after_cell, positions[i]);
    }
    at
}
