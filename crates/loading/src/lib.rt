// Loading: tables read and judged into the arrays of the database.
#![tactic(auto)]

ghost use Rattle.std.specs.Prelude.{map};
ghost use Rattle.loading.specs.Loaded.{lent, IndexMade, Loads};

use arrays::PLACES;
use indexing::index_rows;
use judged::judge_kept;
use kept::{BYTES, KeepError, keep};
use tables::{SizeError, TABLES};

// The rows that are kept are judged, and the good ones indexed.
fn index_kept(columns: &mut [u16], bytes: &[u8], n: usize)
    ensures { IndexMade columns.old bytes.now columns.new n }
{
    let mut cells = [0u16; PLACES];
    judge_kept(columns, bytes, &mut cells, n);
    index_rows(columns, bytes, &cells, n);
}

// Reads and judges the tables into the arrays of the database. A refusal leaves these alone;
// it is the one of keeping the rows, since nothing else can fail. No `?`: each size is told by itself,
// so that a wrong one is refused for its value.
pub fn load(
    tables: [&[u8]; TABLES],
    words: &mut [u64],
    links: &mut [u16],
    columns: &mut [u16],
) -> Result<(), KeepError>
    ensures { Loads (map (λ x. x.now) tables.entry) (lent words.old links.old columns.old)
        (lent words.new links.new columns.new) result }
{
    let mut bytes = [0u8; BYTES];
    match keep(tables, words, links, columns, &mut bytes) {
        Ok(kept) => {
            index_kept(columns, &bytes, kept.rows);
            Ok(())
        }
        Err(KeepError::Sizes(SizeError::TooLong(table))) => Err(KeepError::Sizes(SizeError::TooLong(
            table,
        ))),
        Err(KeepError::Sizes(SizeError::TooManyRows(table))) => Err(KeepError::Sizes(
            SizeError::TooManyRows(table),
        )),
        Err(KeepError::NoRoom) => Err(KeepError::NoRoom),
    }
}
