// The answers to an import, in words and numbers.
ghost use Rattle.std.specs.Prelude.{◌≡◌};
ghost use Rattle.import.specs.Judged.{said_imported};
ghost use Rattle.replies.specs.Replies.{imported_answer, cell_answer, only_answer};

use answers::answer::{Answer, compose, one, refused, says, two};
use import::Imported;
use outcomes::{Refusal, number_of, place_of};

// The counts, and all cells with their positions.
pub fn say_imported(imported: Result<Imported, Refusal>) -> Answer
    ensures { result ≡ imported_answer (said_imported imported) }
{
    match imported {
        Ok(counts) => compose(
            b"# rows, # good:",
            false,
            two(counts.rows as u64, counts.good as u64),
            0,
            0,
            counts.rows,
        ),
        Err(refusal) => refused(number_of(refusal) as u64, place_of(refusal) as u64),
    }
}

// Nothing is said of a position that is 0.
fn say_cell(cell: u16, position: u16) -> Answer
    ensures { result ≡ cell_answer cell position }
{
    let reason = (cell / 256) as u64;
    let column = (cell % 256) as u64;
    if 0 < position {
        return says(
            b"#:#@#",
            false,
            [reason, column, position as u64, 0, 0, 0, 0],
        );
    }
    if cell == 0 {
        return says(b"good", false, one(0));
    }
    says(b"#:#", false, two(reason, column))
}

// The cell of the only row.
pub fn say_only(imported: Result<Imported, Refusal>, cell: u16, position: u16) -> Answer
    ensures { result ≡ only_answer (said_imported imported) cell position }
{
    match imported {
        Ok(_) => say_cell(cell, position),
        Err(refusal) => refused(number_of(refusal) as u64, place_of(refusal) as u64),
    }
}
