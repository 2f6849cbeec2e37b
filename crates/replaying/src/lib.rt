// An archive of any length, read in blocks, its packets offered to the limit step of a parameter over loaded tables.
#![tactic(auto)]

ghost use Rattle.std.specs.Prelude.{map};
ghost use Rattle.database.specs.Arrays.{database, answers};
ghost use Rattle.replaying.specs.Replayed.{AtStart, BlockReplayed, Replayed};

use archives::{BLOCK, refill};
use lines::columns::part;
use playing::{Replay, fresh_replay, play};
use showing::stretches::Showing;
use std::io::Read;
use tables::TABLES;

// More blocks than any file has.
const MOST_BLOCKS: usize = 18446744073709551615;

// What the packets so far have led to, and from where to where bytes of the block are left over.
#[derive(Clone, Copy)]
pub struct Standing {
    pub replay: Replay,
    pub from: usize,
    pub to: usize,
}

// Nothing read yet.
pub fn at_start() -> Standing
    ensures { AtStart result }
{
    let replay = fresh_replay();
    Standing {
        replay,
        from: 0,
        to: 0,
    }
}

// Reads a block behind what is left over of the last, and offers its packets.
fn take_block(
    rt: &(impl Print + Eprint),
    tables: [&[u8]; TABLES],
    words: &[u64],
    links: &[u16],
    columns: &[u16],
    name: &[u8],
    file: &mut impl Read,
    block: &mut [u8],
    showing: Showing,
    begun: Standing,
) -> Standing
    ensures { BlockReplayed (answers (database (map (λ x. x.now) tables.entry) words.now links.now columns.now))
        name.now begun result block.old block.new }
{
    let to = refill(file, block, begun.from, begun.to);
    let replay = begun.replay;
    let bytes = part(block, 0, to);
    let played = play(
        rt, tables, words, links, columns, name, bytes, showing, replay,
    );
    let after = played.replay;
    Standing {
        replay: after,
        from: played.used,
        to,
    }
}

// From a fresh state to the end of the file.
pub fn take_blocks(
    rt: &(impl Print + Eprint),
    tables: [&[u8]; TABLES],
    words: &[u64],
    links: &[u16],
    columns: &[u16],
    name: &[u8],
    file: &mut impl Read,
    showing: Showing,
) -> Standing
    ensures { Replayed (answers (database (map (λ x. x.now) tables.entry) words.now links.now columns.now))
        name.now result }
{
    let mut memory = [0u8; BLOCK];
    let block: &mut [u8] = &mut memory;
    let mut standing = at_start();
    for _ in 0..MOST_BLOCKS {
        standing = take_block(
            rt, tables, words, links, columns, name, file, block, showing, standing,
        );
        if standing.to < BLOCK {
            break;
        }
    }
    standing
}
