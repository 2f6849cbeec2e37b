// Loading into arrays of the full size, which have room for any tables: done, or refused by 1 or 2.
#![tactic(auto)]

ghost use Rattle.std.specs.Prelude.{map};
ghost use Rattle.loading.specs.Loaded.{lent};
ghost use Rattle.full_loading.specs.FullLoads.{FullLoads};

use database::COLUMNS;
use kept::{KeepError, LINKS, WORDS};
use loading::load;
use outcomes::Refusal;
use tables::TABLES;

// The arrays are lent at their full size, so that a caller which makes them shows nothing of their lengths.
#[tactic(auto, using(crate::proofs::FullLoadLaws::full_long, crate::proofs::FullLoadLaws::full_many))]
pub fn load_full(
    tables: [&[u8]; TABLES],
    words: &mut [u64; WORDS],
    links: &mut [u16; LINKS],
    columns: &mut [u16; COLUMNS],
) -> Result<(), Refusal>
    ensures { FullLoads (map (λ x. x.now) tables.entry) (lent words.old links.old columns.old)
        (lent words.new links.new columns.new) result }
{
    match load(tables, words, links, columns) {
        Ok(()) => Ok(()),
        Err(KeepError::Sizes(error)) => Err(Refusal::from(error)),
        Err(KeepError::NoRoom) => Ok(()),
    }
}
