// What is kept of the rows of the tables: each read once, its keys known by numbers, its columns stored.
#![tactic(auto)]

ghost use Rattle.std.specs.Prelude.{◌≡◌, map};
ghost use Rattle.tables.specs.Sizes.{fit, sizes_of};
ghost use Rattle.kept.specs.FirstPass.{arrays};
ghost use Rattle.kept.specs.Keeping.{Keeps};
ghost use Rattle.kept.specs.declared.KeepError.TheVariants.{Sizes};

use crate::kept::keep_tables;
use arrays::{PLACES, clear_halves};
use tables::{SizeError, TABLES, check_sizes};

mod columns;
mod interning;
mod kept;

// What is lent needs the words and the links of all symbols,
// eight columns of numbers below 65,536 and five of numbers below 256.
pub const WORDS: usize = symbols::WORDS;

pub const LINKS: usize = symbols::LINKS;

pub const HALVES: usize = 8 * PLACES;

pub const BYTES: usize = 5 * PLACES;

// How many rows are kept, and how many symbols there are.
#[derive(Clone, Copy)]
pub struct KeptCounts {
    pub rows: usize,
    pub symbols: usize,
}

// The first table that is too large, or too short an array.
#[derive(Clone, Copy)]
pub enum KeepError {
    Sizes(SizeError),
    NoRoom,
}

impl From<SizeError> for KeepError {
    ghost from_gives = { λ error kept. kept ≡ Sizes error };

    fn from(error: SizeError) -> KeepError {
        KeepError::Sizes(error)
    }
}

// Reads the rows of the tables once, and keeps what they say in the arrays. A refusal leaves these alone.
pub fn keep(
    tables: [&[u8]; TABLES],
    words: &mut [u64],
    links: &mut [u16],
    halves: &mut [u16],
    bytes: &mut [u8],
) -> Result<KeptCounts, KeepError>
    ensures { Keeps (map (λ x. x.now) tables.entry) (arrays words.old links.old 0 halves.old bytes.old)
        (arrays words.new links.new 0 halves.new bytes.new) result }
{
    check_sizes(tables)?;
    keep_fitting(tables, words, links, halves, bytes)
}

// The same of tables that are of a size to take.
fn keep_fitting(
    tables: [&[u8]; TABLES],
    words: &mut [u64],
    links: &mut [u16],
    halves: &mut [u16],
    bytes: &mut [u8],
) -> Result<KeptCounts, KeepError>
    requires { sizes_of (map (λ x. x.now) tables) ≡ fit }
    ensures { Keeps (map (λ x. x.now) tables.entry) (arrays words.old links.old 0 halves.old bytes.old)
        (arrays words.new links.new 0 halves.new bytes.new) result }
{
    if words.len() < WORDS {
        return Err(KeepError::NoRoom);
    }
    if links.len() < LINKS {
        return Err(KeepError::NoRoom);
    }
    if halves.len() < HALVES {
        return Err(KeepError::NoRoom);
    }
    if bytes.len() < BYTES {
        return Err(KeepError::NoRoom);
    }
    clear_halves(links);
    let kept = keep_tables(tables, words, links, halves, bytes);
    Ok(kept)
}
