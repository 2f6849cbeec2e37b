// Which packet it is.
#![tactic(auto)]

ghost use Rattle.std.specs.Prelude.{◌≡◌, map};
ghost use Rattle.database.specs.Arrays.{database, answers};
ghost use Rattle.identification.specs.Identification.{choose_by, identify_headed, identify_by, said_identified};

use database::{holder_of, number_of};
use five_numbers::{identifiers_of, numbers_of};
use found_rows::spid_at;
use headers::{Head, read_header};
use key_symbols::{FiveNumbers, packet_key};
use outcomes::Refusal;
use tables::TABLES;
use units::{RowNumber, Spid};

// The pid row's number, its SPID and the five numbers.
#[derive(Clone, Copy)]
pub struct Identity {
    pub row: RowNumber,
    pub spid: Spid,
    pub numbers: FiveNumbers,
}

// The pid row that the five numbers choose.
fn choose(
    tables: [&[u8]; TABLES],
    words: &[u64],
    links: &[u16],
    columns: &[u16],
    numbers: FiveNumbers,
) -> Result<Identity, Refusal>
    ensures { said_identified result
        ≡ choose_by (answers (database (map (λ x. x.now) tables.entry) words.now links.now columns.now)) numbers }
{
    let asked = packet_key(numbers);
    if !asked.fits {
        return Err(Refusal::NoPidRow);
    }
    let at = holder_of(words, links, columns, asked.key);
    if at == 0 {
        return Err(Refusal::NoPidRow);
    }
    let i = at - 1;
    let row = number_of(columns, i);
    let spid = spid_at(tables, columns, i);
    Ok(Identity { row, spid, numbers })
}

// Which packet it is, by the good rows of the database, where its header is known.
// Bytes past the packet's end read as 0, whatever the header says.
pub fn identify_headed(
    tables: [&[u8]; TABLES],
    words: &[u64],
    links: &[u16],
    columns: &[u16],
    p: &[u8],
    head: Head,
) -> Result<Identity, Refusal>
    ensures { said_identified result
        ≡ identify_headed (answers (database (map (λ x. x.now) tables.entry) words.now links.now columns.now))
        head p.now }
{
    let pair = identifiers_of(tables, words, links, columns, p, head)?;
    choose(tables, words, links, columns, numbers_of(p, head, pair))
}

// The same from the header on.
pub fn identify_in(
    tables: [&[u8]; TABLES],
    words: &[u64],
    links: &[u16],
    columns: &[u16],
    p: &[u8],
) -> Result<Identity, Refusal>
    ensures { said_identified result
        ≡ identify_by (answers (database (map (λ x. x.now) tables.entry) words.now links.now columns.now)) p.now }
{
    let head = read_header(p)?;
    identify_headed(tables, words, links, columns, p, head)
}
