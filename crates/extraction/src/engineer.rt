// The engineering value of a parameter in a packet, valid or not: its VALID chain is not read.
ghost use Rattle.std.specs.Prelude.{◌≡◌, map};
ghost use Rattle.outcomes.specs.Values.{value_of};
ghost use Rattle.database.specs.Arrays.{database, answers};
ghost use Rattle.engineering.specs.Engineering.{said_engineered};
ghost use Rattle.extraction.specs.Engineering.{engineer_by};
ghost use Rattle.extraction.specs.Located.{engineered_by, engineered_in};

use engineering::engineer::{Engineered, engineer_value};
use found_rows::{location_at, pcf_at};
use identification::identify_in;
use name_bytes::{Name, name_of};
use outcomes::{Refusal, Value};
use parameters::locate;
use raw_values::raw_of;
use rows::records::PcfRow;
use tables::TABLES;
use units::Spid;

// Of a value, by the parameter's pcf row.
fn engineer_read(
    tables: [&[u8]; TABLES],
    words: &[u64],
    links: &[u16],
    columns: &[u16],
    pcf: PcfRow,
    value: Value,
) -> Result<Engineered, Refusal>
    ensures { said_engineered result
        ≡ engineered_by (answers (database (map (λ x. x.now) tables.entry) words.now links.now columns.now)) pcf (value_of value) }
{
    match value {
        Value::Number(z) => engineer_value(tables, words, links, columns, pcf, z),
        Value::Part(from, bytes) => Ok(Engineered::Is(Value::Part(from, bytes))),
        Value::Bits(pattern, width) => Ok(Engineered::Is(Value::Bits(pattern, width))),
    }
}

// Of occurrence k of a parameter in a packet of this SPID: its two rows are found and decoded once.
fn engineer_located(
    tables: [&[u8]; TABLES],
    words: &[u64],
    links: &[u16],
    columns: &[u16],
    p: &[u8],
    spid: Spid,
    name: Name,
    k: usize,
) -> Result<Engineered, Refusal>
    ensures { said_engineered result
        ≡ engineered_in (answers (database (map (λ x. x.now) tables.entry) words.now links.now columns.now))
        p.now spid.0 name k }
{
    let Some(at) = locate(words, links, columns, spid, name) else {
        return Err(Refusal::NoPlfRow);
    };
    let location = location_at(tables, columns, at.plf);
    let pcf = pcf_at(tables, columns, at.pcf);
    let value = raw_of(p, location, pcf, k)?;
    engineer_read(tables, words, links, columns, pcf, value)
}

// Of tables that are loaded.
pub fn engineer_in(
    tables: [&[u8]; TABLES],
    words: &[u64],
    links: &[u16],
    columns: &[u16],
    p: &[u8],
    name: &[u8],
    occurrence: usize,
) -> Result<Engineered, Refusal>
    ensures { said_engineered result ≡ engineer_by (answers (database (map (λ x. x.now) tables.entry) words.now links.now
        columns.now))
        p.now name.now occurrence }
{
    let identity = identify_in(tables, words, links, columns, p)?;
    engineer_located(
        tables,
        words,
        links,
        columns,
        p,
        identity.spid,
        name_of(name),
        occurrence,
    )
}
