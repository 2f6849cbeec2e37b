// The passes over what is kept of the rows, one after the other: the verdict of each row.
// Arrays by row and by key are lent whole.
#![tactic(auto)]

ghost use Rattle.std.specs.Prelude.{◌≡◌};
ghost use Rattle.std.proofs.lemmas.List.Edits.{sets};
ghost use Rattle.kept.specs.Stored.{name1_column, name2_column};
ghost use Rattle.judged.specs.Passes.{formed_by, SoundBy, HoldersBy, CountsBy, FoundBy, judged_by, JudgedInto};

use crate::parts::{
    CODE1, CODE2, COUNT, GROUP, KEY1, KEY2, MARKS, NAME1, NAME2, NUMBER, OWN, byte_column,
    half_column,
};
use arrays::PLACES;
use chain_steps::NO_ROW;
use findings::{count_rows, find_rows, mark_formed};
use judging::judge_rows;
use passes::counts::count_ids;
use passes::holders::note_rows;
use passes::sound::mark_sound;
use symbols::SYMBOLS;

pub mod parts;

// Marks the rows without reasons 1 to 9.
fn sound_rows(halves: &[u16], sound: &mut [u8; PLACES], n: usize)
    ensures { SoundBy halves.now sound.old sound.new n }
{
    let mut formed = [0u8; PLACES];
    let mut holders = [0u16; SYMBOLS];
    mark_formed(half_column(halves, OWN), &mut formed, n);
    let key1 = half_column(halves, KEY1);
    let key2 = half_column(halves, KEY2);
    count_ids(&formed, key1, &mut holders, n);
    count_ids(&formed, key2, &mut holders, n);
    mark_sound(&formed, key1, key2, &holders, sound, n);
}

// Notes one more than a marked row that holds each key, by the key's id.
pub fn note_holders(marks: &[u8; PLACES], halves: &[u16], holders: &mut [u16; SYMBOLS], n: usize)
    ensures { HoldersBy marks.now halves.now holders.old holders.new n }
{
    note_rows(marks, half_column(halves, KEY1), holders, n);
    note_rows(marks, half_column(halves, KEY2), holders, n);
}

// The same of the rows without reasons 1 to 8.
fn holder_rows(halves: &[u16], holders: &mut [u16; SYMBOLS], n: usize)
    ensures { HoldersBy (formed_by halves.now n) halves.now holders.old holders.new n }
{
    let mut formed = [0u8; PLACES];
    mark_formed(half_column(halves, OWN), &mut formed, n);
    note_holders(&formed, halves, holders, n);
}

// Reason 10 of the rows that count others.
fn count_cells(
    halves: &[u16],
    bytes: &[u8],
    sound: &[u8; PLACES],
    counts: &mut [u16; PLACES],
    n: usize,
)
    ensures { CountsBy halves.now bytes.now sound.now counts.old counts.new n }
{
    let mut tallies = [0u16; SYMBOLS];
    count_ids(sound, half_column(halves, GROUP), &mut tallies, n);
    count_rows(
        byte_column(bytes, COUNT),
        half_column(halves, KEY1),
        half_column(halves, NUMBER),
        &tallies,
        counts,
        n,
    );
}

// The rows that what rows name leads to, in both places.
fn find_names(
    halves: &[u16],
    holders: &[u16; SYMBOLS],
    found1: &mut [u16; PLACES],
    found2: &mut [u16; PLACES],
    n: usize,
)
    ensures found_by { FoundBy halves.now holders.now name1_column found1.old found1.new n }
    ensures found_by_2 { FoundBy halves.now holders.now name2_column found2.old found2.new n }
{
    find_rows(half_column(halves, NAME1), holders, found1, n);
    find_rows(half_column(halves, NAME2), holders, found2, n);
}

// The verdicts by what the other passes found.
fn judge_found(
    halves: &[u16],
    bytes: &[u8],
    sound: &[u8; PLACES],
    counts: &[u16; PLACES],
    found1: &[u16; PLACES],
    found2: &[u16; PLACES],
    cells: &mut [u16],
    n: usize,
)
    ensures { cells.new ≡ sets cells.old 0 (judged_by halves.now bytes.now
        sound.now counts.now found1.now found2.now n) }
{
    judge_rows(
        half_column(halves, OWN),
        sound,
        counts,
        byte_column(bytes, CODE1),
        found1,
        byte_column(bytes, CODE2),
        found2,
        byte_column(bytes, MARKS),
        cells,
        n,
    );
}

// The verdicts of n rows by what is kept of them, put to the cells.
pub fn judge_kept(halves: &[u16], bytes: &[u8], cells: &mut [u16], n: usize)
    ensures { JudgedInto halves.now bytes.now cells.old cells.new n }
{
    let mut sound = [0u8; PLACES];
    let mut holders = [0u16; SYMBOLS];
    let mut counts = [0u16; PLACES];
    let mut found1 = [NO_ROW; PLACES];
    let mut found2 = [NO_ROW; PLACES];
    sound_rows(halves, &mut sound, n);
    holder_rows(halves, &mut holders, n);
    count_cells(halves, bytes, &sound, &mut counts, n);
    find_names(halves, &holders, &mut found1, &mut found2, n);
    judge_found(halves, bytes, &sound, &counts, &found1, &found2, cells, n);
}
