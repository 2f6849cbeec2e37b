// An archive of any length, read in blocks, its packets surveyed.
ghost use Rattle.std.specs.Prelude.{◌≡◌, map};
ghost use Rattle.database.specs.Arrays.{database, answers};
ghost use Rattle.surveying.specs.Archive.{nothing_read, BlockSurveyed, SurveyedFile};

use crate::asking::Question;
use crate::counting::{Tally, survey};
use archives::{BLOCK, refill};
use lines::columns::part;
use std::io::Read;
use tables::TABLES;

// More blocks than any file has.
const MOST_BLOCKS: usize = 18446744073709551615;

// The survey of the packets so far, and from where to where bytes of the block are left over.
#[derive(Clone, Copy)]
pub struct Standing {
    pub tally: Tally,
    pub from: usize,
    pub to: usize,
}

// Nothing read yet.
pub fn at_start() -> Standing
    ensures { result ≡ nothing_read }
{
    Standing {
        tally: Tally {
            answered: 0,
            refused: 0,
            weight: 0,
        },
        from: 0,
        to: 0,
    }
}

// Reads a block behind what is left over of the last, and asks of its packets.
fn take_block(
    tables: [&[u8]; TABLES],
    words: &[u64],
    links: &[u16],
    columns: &[u16],
    name: &[u8],
    question: Question,
    file: &mut impl Read,
    block: &mut [u8],
    begun: Standing,
) -> Standing
    ensures { BlockSurveyed (answers (database (map (λ x. x.now) tables.entry) words.now links.now columns.now))
        name.now question begun result block.old block.new }
{
    let to = refill(file, block, begun.from, begun.to);
    let bytes = part(block, 0, to);
    let tally = begun.tally;
    let surveyed = survey(tables, words, links, columns, name, question, bytes, tally);
    let after = surveyed.tally;
    Standing {
        tally: after,
        from: surveyed.used,
        to,
    }
}

// From no packet to the end of the file.
pub fn take_blocks(
    tables: [&[u8]; TABLES],
    words: &[u64],
    links: &[u16],
    columns: &[u16],
    name: &[u8],
    question: Question,
    file: &mut impl Read,
    block: &mut [u8; BLOCK],
) -> Standing
    ensures { SurveyedFile (answers (database (map (λ x. x.now) tables.entry) words.now links.now columns.now))
        name.now question result }
{
    let mut standing = at_start();
    for _ in 0..MOST_BLOCKS {
        standing = take_block(
            tables, words, links, columns, name, question, file, block, standing,
        );
        if standing.to < BLOCK {
            break;
        }
    }
    standing
}
