// Which checks of a parameter apply in a packet.
#![tactic(auto)]

ghost use Rattle.std.specs.Prelude.{◌≡◌, map};
ghost use Rattle.database.specs.Arrays.{database, answers};
ghost use Rattle.raw_values.specs.RawValues.{said_raw};
ghost use Rattle.applying.specs.Checks as spec;
ghost use Rattle.applying.specs.Checks.{has_value};

use found_rows::{location_at, pcf_at};
use outcomes::{Refusal, Value};
use parameters::locate;
use raw_values::raw_of;
use readings::equals;
use rows::records::OcpRow;
use tables::TABLES;
use units::Spid;

// Whether a raw value is a number and this one.
fn has_value(raw: Result<Value, Refusal>, valpar: i64) -> bool
    ensures { result ≡ has_value (said_raw raw) valpar }
{
    match raw {
        Ok(value) => equals(value, valpar),
        Err(refusal) => false,
    }
}

// Whether RLCHK lets the check apply.
pub fn applies(
    tables: [&[u8]; TABLES],
    words: &[u64],
    links: &[u16],
    columns: &[u16],
    p: &[u8],
    spid: Spid,
    row: OcpRow,
) -> bool
    ensures { result ≡ spec.applies (answers (database (map (λ x. x.now) tables.entry) words.now links.now columns.now))
        p.now spid.0 row }
{
    if !row.rlchk.given {
        return true;
    }
    let name = row.rlchk.name;
    let Some(at) = locate(words, links, columns, spid, name) else {
        return false;
    };
    let location = location_at(tables, columns, at.plf);
    let pcf = pcf_at(tables, columns, at.pcf);
    has_value(raw_of(p, location, pcf, 0), row.valpar)
}
