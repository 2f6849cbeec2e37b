// The tables of a directory.
ghost use Rattle.tables.specs.Parts.{tables_in};
ghost use Rattle.survey.specs.OfTables.{OfTables, OfDirectory};

use crate::loaded::survey_tables;
use directories::{load_directory, tables_in};
use std::rt::Files;
use surveying::archive::{Standing, at_start};
use surveying::asking::Question;
use tables::TABLES;

// By the tables that stand in the space.
fn survey_space(
    rt: &(impl Print + Files),
    space: &[u8],
    ends: [usize; TABLES],
    name: &[u8],
    file: &[u8],
    question: Question,
) -> Standing
    ensures { OfTables (tables_in space.now ends) name.now question result }
{
    survey_tables(rt, tables_in(space, ends), name, file, question)
}

// Of a directory that can't be read, or has a table that can't, nothing is asked; what it is was said.
pub(crate) fn survey_directory(
    rt: &(impl Print + Files),
    directory: &[u8],
    name: &[u8],
    file: &[u8],
    question: Question,
    space: &mut [u8],
) -> Standing
    ensures { OfDirectory space.old space.new name.now question result }
{
    let loaded = load_directory(rt, directory, space);
    let ends = loaded.ends;
    if loaded.whole {
        return survey_space(rt, space, ends, name, file, question);
    }
    at_start()
}
