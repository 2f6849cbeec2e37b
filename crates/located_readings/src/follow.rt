// A VALID chain read row by row, each row found and decoded once.
ghost use Rattle.std.specs.Prelude.{◌≡◌, Bool, map, ℤ, length};
ghost use Rattle.rows.specs.declared.records.PcfRow as declared;
ghost use Rattle.outcomes.specs.Outcome.{and_then};
ghost use Rattle.outcomes.specs.Values.{value_of};
ghost use Rattle.database.specs.Arrays.{database, answers};
ghost use Rattle.raw_values.specs.RawValues.{said_raw};
ghost use Rattle.readings.specs.Readings.{agrees, with_validity, reading_with};
ghost use Rattle.located_readings.specs.Asked.{asked_agrees};
ghost use Rattle.located_readings.specs.Blocks.{chain_end, Followed};

use found_rows::{location_at, pcf_at};
use outcomes::{Refusal, Value};
use parameters::locate;
use raw_values::raw_of;
use readings::BLOCK_ROWS;
use rows::records::PcfRow;
use tables::TABLES;
use units::Spid;

// The number that a validity parameter reads in a packet, beside its pcf row.
#[derive(Clone, Copy)]
pub(crate) struct Asked {
    pub value: i64,
    pub row: PcfRow,
}

// How a block of a chain ends: after so many rows with a VALID that can be read, and whether the chain goes on from a
// row; else whether it ends by a row without VALID.
#[derive(Clone, Copy)]
pub(crate) struct BlockEnd {
    pub count: usize,
    pub on: bool,
    pub free: bool,
    pub row: PcfRow,
}

// A value as that of the validity parameter with this pcf row; only a number can be read.
fn value_asked(value: Value, row: PcfRow) -> Option<Asked>
    ensures { (valid : declared.PcfRow → Bool) (valpar : ℤ) → asked_agrees valid result valpar
        ≡ agrees (with_validity (valid row) (value_of value)) valpar }
{
    match value {
        Value::Number(v) => Some(Asked { value: v, row }),
        Value::Part(from, bytes) => None,
        Value::Bits(pattern, width) => None,
    }
}

fn raw_asked(raw: Result<Value, Refusal>, row: PcfRow) -> Option<Asked>
    ensures { (valid : declared.PcfRow → Bool) (valpar : ℤ) → asked_agrees valid result valpar
        ≡ agrees (and_then (said_raw raw) (with_validity (valid row))) valpar }
{
    match raw {
        Ok(value) => value_asked(value, row),
        Err(refusal) => None,
    }
}

fn end_of(count: usize, free: bool, row: PcfRow) -> BlockEnd
    ensures { result ≡ chain_end count free row }
{
    BlockEnd {
        count,
        on: false,
        free,
        row,
    }
}

// The validity parameter of a row, where it can be read.
fn ask(
    tables: [&[u8]; TABLES],
    words: &[u64],
    links: &[u16],
    columns: &[u16],
    p: &[u8],
    spid: Spid,
    row: PcfRow,
) -> Option<Asked>
    ensures { (valid : declared.PcfRow → Bool) (valpar : ℤ) → asked_agrees valid result valpar
        ≡ agrees (reading_with (answers (database (map (λ x. x.now) tables.entry) words.now links.now columns.now))
        p.now spid.0 valid row.valid.name 0) valpar }
{
    let name = row.valid.name;
    let at = locate(words, links, columns, spid, name)?;
    let location = location_at(tables, columns, at.plf);
    let pcf = pcf_at(tables, columns, at.pcf);
    raw_asked(raw_of(p, location, pcf, 0), pcf)
}

// Stores of each row with VALID, from this one on, what its validity parameter reads and its VALPAR,
// as far as a block goes.
pub(crate) fn follow(
    tables: [&[u8]; TABLES],
    words: &[u64],
    links: &[u16],
    columns: &[u16],
    p: &[u8],
    spid: Spid,
    row: PcfRow,
    values: &mut [i64; BLOCK_ROWS],
    valpars: &mut [i64; BLOCK_ROWS],
) -> BlockEnd
    requires { (length values.old ≡ 16) × (length valpars.old ≡ 16) }
    ensures { Followed (answers (database (map (λ x. x.now) tables.entry) words.now links.now columns.now))
        p.now spid.0 row values.new valpars.new result }
{
    let mut at = row;
    let mut count: usize = 0;
    while count < BLOCK_ROWS {
        if !at.valid.given {
            return end_of(count, true, at);
        }
        let Some(asked) = ask(tables, words, links, columns, p, spid, at) else {
            return end_of(count, false, at);
        };
        let value = asked.value;
        let valpar = at.valpar;
        values[count] = value;
        valpars[count] = valpar;
        at = asked.row;
        count += 1;
    }
    BlockEnd {
        count,
        on: true,
        free: true,
        row: at,
    }
}
