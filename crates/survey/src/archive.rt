// The packets of a file.
ghost use Rattle.std.specs.Prelude.{map};
ghost use Rattle.database.specs.Arrays.{database, answers};
ghost use Rattle.surveying.specs.Archive.{SurveyedFile};

use crate::say::say_end;
use archives::BLOCK;
use database::COLUMNS;
use files::source::{open_file, short};
use kept::{LINKS, WORDS};
use showing::say::say_unread;
use std::io::Read;
use std::rt::Files;
use surveying::archive::{Standing, at_start, take_blocks};
use surveying::asking::Question;
use tables::TABLES;

// The only function that has the block.
fn survey_open(
    tables: [&[u8]; TABLES],
    words: &[u64; WORDS],
    links: &[u16; LINKS],
    columns: &[u16; COLUMNS],
    name: &[u8],
    question: Question,
    file: &mut impl Read,
) -> Standing
    ensures { SurveyedFile (answers (database (map (λ x. x.now) tables.entry) words.now links.now columns.now))
        name.now question result }
{
    let mut block = [0u8; BLOCK];
    take_blocks(
        tables, words, links, columns, name, question, file, &mut block,
    )
}

// To the file's end, when the survey is said; of a file that can't be opened nothing is read, which is said instead.
pub(crate) fn survey_archive(
    rt: &(impl Print + Files),
    tables: [&[u8]; TABLES],
    words: &[u64; WORDS],
    links: &[u16; LINKS],
    columns: &[u16; COLUMNS],
    name: &[u8],
    file: &[u8],
    question: Question,
) -> Standing
    ensures { SurveyedFile (answers (database (map (λ x. x.now) tables.entry) words.now links.now columns.now))
        name.now question result }
{
    match open_file(rt, file) {
        Ok(opened) => {
            let mut archive = opened;
            let standing = survey_open(tables, words, links, columns, name, question, &mut archive);
            say_end(rt, file, standing, short(&mut archive));
            standing
        }
        Err(error) => {
            say_unread(rt, file, error);
            at_start()
        }
    }
}
