// Why a row isn't good: its verdict, and the rows that it speaks of.
#![tactic(auto)]

ghost use Rattle.std.specs.Prelude.{◌≡◌, map, ℕ, length};
ghost use Rattle.std.proofs.lemmas.List.Edits.{sets};
ghost use Rattle.laws.specs.Prefix.{all_from};
ghost use Rattle.cells.specs.Cells.{cell_of};
ghost use Rattle.pointing.specs.Pointing.{points_to};
ghost use Rattle.explaining.specs.Explaining.{said_explanation, answer_of, places_after};
ghost use Rattle.explaining.specs.ByColumns.{ExplainsBy};

use arrays::{PLACES, half_at};
use cells::cell_of;
use judged::judge_kept;
use kept::{BYTES, HALVES, KeepError, LINKS, WORDS, keep};
use lines::columns::keep_at;
use pointing::points_to;
use tables::{SizeError, TABLES};
use units::{RowNumber, TableNumber};

// The verdict of a row, and of how many rows it speaks.
#[derive(Clone, Copy)]
pub struct Explanation {
    pub verdict: u16,
    pub causes: usize,
}

// The first table that is too large; or there is no such row.
#[derive(Clone, Copy)]
pub enum ExplainError {
    Sizes(SizeError),
    NoRow,
}

// Puts the places of the rows of n that row i points to, as far as there is room: how many they are.
fn put_causes(
    halves: &[u16],
    bytes: &[u8],
    cells: &[u16],
    n: usize,
    i: usize,
    places: &mut [usize],
) -> usize
    ensures value { result ≡ length (all_from (points_to halves.now bytes.now cells.now i) 0 n) }
    ensures places_after { places.new
        ≡ sets places.old 0 (all_from (points_to halves.now bytes.now cells.now i) 0 n) }
{
    let mut count: usize = 0;
    let mut j: usize = 0;
    while j < n {
        if points_to(halves, bytes, cells, i, j) {
            keep_at(places, count, j);
            count += 1;
            j += 1;
        } else {
            j += 1;
        }
    }
    count
}

// The same by the row's cell, of rows that are kept.
fn explain_kept(
    halves: &[u16],
    bytes: &[u8],
    cells: &mut [u16],
    n: usize,
    cell: Option<usize>,
    places: &mut [usize],
) -> Result<Explanation, ExplainError>
    ensures { ExplainsBy halves.now bytes.now cells.old cells.new n cell
        places.old places.new result }
{
    judge_kept(halves, bytes, cells, n);
    match cell {
        Some(i) => {
            let causes = put_causes(halves, bytes, cells, n, i, places);
            let verdict = half_at(cells, i);
            Ok(Explanation { verdict, causes })
        }
        None => Err(ExplainError::NoRow),
    }
}

// The arrays are lent at their full size.
fn explain_in(
    tables: [&[u8]; TABLES],
    cell: Option<usize>,
    words: &mut [u64; WORDS],
    links: &mut [u16; LINKS],
    halves: &mut [u16; HALVES],
    bytes: &mut [u8; BYTES],
    cells: &mut [u16; PLACES],
    places: &mut [usize],
) -> Result<Explanation, ExplainError>
    ensures { (n m : ℕ) → cell ≡ cell_of (map (λ x. x.now) tables.entry) n m
        → (said_explanation result ≡ answer_of (map (λ x. x.now) tables.entry) n m)
        × (places.new ≡ places_after (map (λ x. x.now) tables.entry) n m places.old) }
{
    match keep(tables, words, links, halves, bytes) {
        Ok(kept) => explain_kept(halves, bytes, cells, kept.rows, cell, places),
        Err(KeepError::Sizes(error)) => Err(ExplainError::Sizes(error)),
        Err(KeepError::NoRoom) => Err(ExplainError::NoRow),
    }
}

// The verdict of a row, and the rows that it speaks of by their places among all rows, from 0, as import's cells stand.
pub fn explain(
    tables: [&[u8]; TABLES],
    table: TableNumber,
    row: RowNumber,
    places: &mut [usize],
) -> Result<Explanation, ExplainError>
    ensures result_value { said_explanation result ≡ answer_of (map (λ x. x.now) tables.entry) table.0 row.0 }
    ensures places_after { places.new ≡ places_after (map (λ x. x.now) tables.entry) table.0 row.0 places.old }
{
    let mut words = [0u64; WORDS];
    let mut links = [0u16; LINKS];
    let mut halves = [0u16; HALVES];
    let mut bytes = [0u8; BYTES];
    let mut cells = [0u16; PLACES];
    let cell = cell_of(tables, table, row);
    explain_in(
        tables,
        cell,
        &mut words,
        &mut links,
        &mut halves,
        &mut bytes,
        &mut cells,
        places,
    )
}
