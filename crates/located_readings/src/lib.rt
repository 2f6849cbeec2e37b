// Readings by the rows of loaded tables: the rows of a parameter, and its VALID chain.
#![tactic(auto)]

mod follow;

ghost use Rattle.std.specs.Prelude.{◌≡◌, map};
ghost use Rattle.database.specs.Arrays.{database, answers};
ghost use Rattle.readings.specs.Readings as spec;
ghost use Rattle.readings.specs.Readings.{said_reading};
ghost use Rattle.located_readings.specs.Blocks.{Decides};

use crate::follow::follow;
use found_rows::{location_at, pcf_at};
use name_bytes::Name;
use outcomes::Refusal;
use parameters::locate;
use raw_values::raw_of;
use readings::{BLOCK_ROWS, Reading, valid_chain};
use rows::records::PcfRow;
use tables::{MOST_ROWS, TABLES};
use units::Spid;

// A chain has at most so many blocks, as pcf has at most so many rows.
const MOST_BLOCKS: usize = MOST_ROWS / BLOCK_ROWS;

// What a block of a chain says of the row that it starts with: valid as the row is that the chain goes on from,
// else valid or not.
#[derive(Clone, Copy)]
pub(crate) struct Block {
    pub on: bool,
    pub valid: bool,
    pub row: PcfRow,
}

// Whether readings of a row are valid by the next block of its VALID chain: the block is read, and then asked.
fn valid_block(
    tables: [&[u8]; TABLES],
    words: &[u64],
    links: &[u16],
    columns: &[u16],
    p: &[u8],
    spid: Spid,
    row: PcfRow,
) -> Block
    ensures { Decides (answers (database (map (λ x. x.now) tables.entry) words.now links.now columns.now))
        p.now spid.0 row result }
{
    let mut values = [0i64; BLOCK_ROWS];
    let mut valpars = [0i64; BLOCK_ROWS];
    let end = follow(
        tables,
        words,
        links,
        columns,
        p,
        spid,
        row,
        &mut values,
        &mut valpars,
    );
    let next = end.row;
    let valid = valid_chain(&values, &valpars, end.free, end.count);
    if valid {
        return Block {
            on: end.on,
            valid,
            row: next,
        };
    }
    Block {
        on: false,
        valid,
        row: next,
    }
}

// Whether readings of the parameter with this pcf row are valid: its VALID chain is followed to its end,
// or to a row that disagrees.
pub fn validity(
    tables: [&[u8]; TABLES],
    words: &[u64],
    links: &[u16],
    columns: &[u16],
    p: &[u8],
    spid: Spid,
    row: PcfRow,
) -> bool
    ensures { result ≡ spec.validity (answers (database (map (λ x. x.now) tables.entry) words.now links.now columns.now))
        p.now spid.0 row }
{
    if !row.valid.given {
        return true;
    }
    let mut at = row;
    let mut blocks: usize = MOST_BLOCKS;
    while 0 < blocks {
        let block = valid_block(tables, words, links, columns, p, spid, at);
        if !block.on {
            return block.valid;
        }
        at = block.row;
        blocks -= 1;
    }
    !at.valid.given
}

// The reading of occurrence k of a parameter in a packet of this SPID.
pub fn read(
    tables: [&[u8]; TABLES],
    words: &[u64],
    links: &[u16],
    columns: &[u16],
    p: &[u8],
    spid: Spid,
    name: Name,
    k: usize,
) -> Result<Reading, Refusal>
    ensures { said_reading result
        ≡ spec.reading (answers (database (map (λ x. x.now) tables.entry) words.now links.now columns.now))
        p.now spid.0 name k }
{
    let Some(at) = locate(words, links, columns, spid, name) else {
        return Err(Refusal::NoPlfRow);
    };
    let location = location_at(tables, columns, at.plf);
    let pcf = pcf_at(tables, columns, at.pcf);
    let value = raw_of(p, location, pcf, k)?;
    let valid = validity(tables, words, links, columns, p, spid, pcf);
    Ok(Reading { value, valid })
}
