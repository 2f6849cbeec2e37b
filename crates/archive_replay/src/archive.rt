// The packets of a file.
ghost use Rattle.std.specs.Prelude.{map};
ghost use Rattle.database.specs.Arrays.{database, answers};
ghost use Rattle.replaying.specs.Replayed.{Replayed};

use crate::say::say_end;
use database::COLUMNS;
use files::source::{open_file, short};
use replaying::{Standing, at_start, take_blocks};
use showing::say::say_unread;
use showing::stretches::Showing;
use std::rt::Files;
use symbols::{LINKS, WORDS};
use tables::TABLES;

// From a fresh state to the file's end, which is said; of a file that can't be opened nothing is read,
// which is said too.
pub(crate) fn replay_archive(
    rt: &(impl Print + Eprint + Files),
    tables: [&[u8]; TABLES],
    words: &[u64; WORDS],
    links: &[u16; LINKS],
    columns: &[u16; COLUMNS],
    name: &[u8],
    file: &[u8],
    showing: Showing,
) -> Standing
    ensures { Replayed (answers (database (map (λ x. x.now) tables.entry) words.now links.now columns.now))
        name.now result }
{
    match open_file(rt, file) {
        Ok(opened) => {
            let mut archive = opened;
            let standing = take_blocks(
                rt,
                tables,
                words,
                links,
                columns,
                name,
                &mut archive,
                showing,
            );
            say_end(rt, file, standing, short(&mut archive));
            standing
        }
        Err(error) => {
            say_unread(rt, file, error);
            at_start()
        }
    }
}
