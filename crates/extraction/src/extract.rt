// What a packet says of a parameter.
ghost use Rattle.std.specs.Prelude.{◌≡◌, map};
ghost use Rattle.database.specs.Arrays.{database, answers};
ghost use Rattle.readings.specs.Readings.{said_reading};
ghost use Rattle.extraction.specs.Extraction.{extract_by};

use identification::identify_in;
use located_readings::read;
use name_bytes::name_of;
use outcomes::Refusal;
use readings::Reading;
use tables::TABLES;

// Of tables that are loaded.
pub fn extract_in(
    tables: [&[u8]; TABLES],
    words: &[u64],
    links: &[u16],
    columns: &[u16],
    p: &[u8],
    name: &[u8],
    occurrence: usize,
) -> Result<Reading, Refusal>
    ensures { said_reading result ≡ extract_by (answers (database (map (λ x. x.now) tables.entry) words.now links.now columns.now))
        p.now name.now occurrence }
{
    let identity = identify_in(tables, words, links, columns, p)?;
    read(
        tables,
        words,
        links,
        columns,
        p,
        identity.spid,
        name_of(name),
        occurrence,
    )
}
