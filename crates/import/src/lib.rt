// The import: verdicts of all rows of the tables.
#![tactic(auto)]

ghost use Rattle.std.specs.Prelude.{◌≡◌, map};
ghost use Rattle.verdicts.specs.Answer.{room_in, import_of, cells_after, positions_after};
ghost use Rattle.import.specs.Judged.{said_imported, AnswersBy};

use crate::good::good_rows;
use judged::judge_kept;
use kept::{BYTES, HALVES, KeepError, LINKS, WORDS, keep};
use outcomes::Refusal;
use positions::put_positions;
use tables::TABLES;

mod good;

// The counts of rows and of good rows.
#[derive(Clone, Copy)]
pub struct Imported {
    pub rows: usize,
    pub good: usize,
}

// The answer of an import whose n rows are kept.
fn import_kept(
    tables: [&[u8]; TABLES],
    halves: &[u16],
    bytes: &[u8],
    cells: &mut [u16],
    positions: &mut [u16],
    n: usize,
) -> Result<Imported, Refusal>
    ensures { AnswersBy (map (λ x. x.now) tables.entry) halves.now bytes.now cells.old cells.new
        positions.old positions.new n result }
{
    if cells.len() < n {
        return Err(Refusal::TooFewCells);
    }
    if positions.len() < n {
        return Err(Refusal::TooFewCells);
    }
    judge_kept(halves, bytes, cells, n);
    put_positions(tables, halves, bytes, positions, n);
    let good = good_rows(&cells[..n]);
    Ok(Imported { rows: n, good })
}

// The arrays are lent at their full size.
fn import_in(
    tables: [&[u8]; TABLES],
    words: &mut [u64; WORDS],
    links: &mut [u16; LINKS],
    halves: &mut [u16; HALVES],
    bytes: &mut [u8; BYTES],
    cells: &mut [u16],
    positions: &mut [u16],
) -> Result<Imported, Refusal>
    ensures result_value { said_imported result ≡ import_of (map (λ x. x.now) tables.entry) (room_in cells.old positions.old) }
    ensures cells_after { cells.new ≡ cells_after (map (λ x. x.now) tables.entry) cells.old (said_imported result) }
    ensures positions_after { positions.new ≡ positions_after (map (λ x. x.now) tables.entry) positions.old (said_imported result) }
{
    match keep(tables, words, links, halves, bytes) {
        Ok(kept) => import_kept(tables, halves, bytes, cells, positions, kept.rows),
        Err(KeepError::Sizes(error)) => Err(Refusal::from(error)),
        Err(KeepError::NoRoom) => Err(Refusal::TooFewCells),
    }
}

// Judges all rows of the tables: one cell and one position for each, in table order. A refusal touches neither.
pub fn import(
    tables: [&[u8]; TABLES],
    cells: &mut [u16],
    positions: &mut [u16],
) -> Result<Imported, Refusal>
    ensures result_value { said_imported result ≡ import_of (map (λ x. x.now) tables.entry) (room_in cells.old positions.old) }
    ensures cells_after { cells.new ≡ cells_after (map (λ x. x.now) tables.entry) cells.old (said_imported result) }
    ensures positions_after { positions.new ≡ positions_after (map (λ x. x.now) tables.entry) positions.old (said_imported result) }
{
    let mut words = [0u64; WORDS];
    let mut links = [0u16; LINKS];
    let mut halves = [0u16; HALVES];
    let mut bytes = [0u8; BYTES];
    import_in(
        tables,
        &mut words,
        &mut links,
        &mut halves,
        &mut bytes,
        cells,
        positions,
    )
}
