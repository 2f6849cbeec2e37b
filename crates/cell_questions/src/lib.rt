// The questions that lend cells and positions: an import, and the cell of a table's only row.
#![tactic(auto)]

ghost use Rattle.std.specs.Prelude.{◌≡◌, map, ◌≤◌, length, take};
ghost use Rattle.cell_questions.specs.CellReplies.{import_verdict, cells_lent, positions_lent, import_in, import_reply, row_verdict, row_reply};

use arrays::half_at;
use comparing::compare::{Verdict, compare};
use import::import;
use lines::columns::part;
use replies::import_replies::{say_imported, say_only};
use scripts::operands::{column_count, natural_at};
use scripts::verb::{find_byte, setting_of};
use tables::{MOST_CELLS, TABLES, table_at};

fn import_into(
    rt: &impl Print,
    name: &[u8],
    number: usize,
    tables: [&[u8]; TABLES],
    line: &[u8],
    cells: &mut [u16],
    positions: &mut [u16],
) -> Verdict
    ensures { result ≡ import_verdict (map (λ x. x.now) tables.entry) cells.old positions.old line.now }
{
    let answer = say_imported(import(tables, cells, positions));
    compare(
        rt,
        name,
        number,
        line,
        answer,
        table_at(tables, 7),
        cells,
        positions,
    )
}

// Into the first cells and positions.
fn import_part(
    rt: &impl Print,
    name: &[u8],
    number: usize,
    tables: [&[u8]; TABLES],
    line: &[u8],
    room: usize,
    more: usize,
    cells: &mut [u16],
    positions: &mut [u16],
) -> Verdict
    requires room_in_bounds { room ≤ length cells.old }
    requires more_in_bounds { more ≤ length positions.old }
    ensures { result ≡ import_verdict (map (λ x. x.now) tables.entry) (take room cells.old) (take more positions.old) line.now }
{
    import_into(
        rt,
        name,
        number,
        tables,
        line,
        &mut cells[..room],
        &mut positions[..more],
    )
}

// How many cells are lent: all where it isn't said.
fn cells_lent(text: &[u8]) -> Option<u64>
    ensures { result ≡ cells_lent text.now }
{
    if text.len() == 0 {
        return Some(MOST_CELLS as u64);
    }
    natural_at(MOST_CELLS as u64, text, 0)
}

// How many positions are lent: as many as cells where it isn't said.
fn positions_lent(text: &[u8]) -> Option<u64>
    ensures { result ≡ positions_lent text.now }
{
    let count = column_count(text);
    if count == 1 {
        return cells_lent(text);
    }
    if count == 2 {
        return natural_at(MOST_CELLS as u64, text, 1);
    }
    None
}

fn import_lent(
    rt: &impl Print,
    name: &[u8],
    number: usize,
    tables: [&[u8]; TABLES],
    text: &[u8],
    line: &[u8],
    cells: &mut [u16; MOST_CELLS],
    positions: &mut [u16; MOST_CELLS],
) -> Verdict
    ensures { result ≡ import_in (map (λ x. x.now) tables.entry) cells.old positions.old text.now line.now }
{
    let Some(room) = cells_lent(text) else {
        return Verdict::Unread;
    };
    let Some(more) = positions_lent(text) else {
        return Verdict::Unread;
    };
    import_part(
        rt,
        name,
        number,
        tables,
        line,
        room as usize,
        more as usize,
        cells,
        positions,
    )
}

pub fn judge_import(
    rt: &impl Print,
    name: &[u8],
    number: usize,
    tables: [&[u8]; TABLES],
    text: &[u8],
    line: &[u8],
) -> Verdict
    ensures { result ≡ import_reply (map (λ x. x.now) tables.entry) text.now line.now }
{
    let mut cells = [65535u16; MOST_CELLS];
    let mut positions = [65535u16; MOST_CELLS];
    import_lent(
        rt,
        name,
        number,
        tables,
        text,
        line,
        &mut cells,
        &mut positions,
    )
}

fn row_into(
    rt: &impl Print,
    name: &[u8],
    number: usize,
    tables: [&[u8]; TABLES],
    line: &[u8],
    cells: &mut [u16],
    positions: &mut [u16],
) -> Verdict
    ensures { result ≡ row_verdict (map (λ x. x.now) tables.entry) cells.old positions.old line.now }
{
    let imported = import(tables, cells, positions);
    let answer = say_only(imported, half_at(cells, 0), half_at(positions, 0));
    compare(
        rt,
        name,
        number,
        line,
        answer,
        table_at(tables, 7),
        cells,
        positions,
    )
}

// A table with these bytes, all others being empty.
pub fn judge_row(rt: &impl Print, name: &[u8], number: usize, text: &[u8], line: &[u8]) -> Verdict
    ensures { result ≡ row_reply text.now line.now }
{
    let tab = find_byte(text, 9);
    let t = setting_of(part(text, 0, tab));
    if TABLES <= t {
        return Verdict::Unread;
    }
    if text.len() <= tab {
        return Verdict::Unread;
    }
    let none = part(text, 0, 0);
    let mut tables = [none; TABLES];
    tables[t] = part(text, tab + 1, text.len());
    let mut cells = [65535u16; MOST_CELLS];
    let mut positions = [65535u16; MOST_CELLS];
    row_into(rt, name, number, tables, line, &mut cells, &mut positions)
}
