// The answers of the calls with an index, in plain numbers.
#![tactic(auto)]

ghost use Rattle.std.specs.Prelude.{◌≡◌};
ghost use Rattle.outcomes.specs.Outcome.{refused, answer};
ghost use Rattle.outcomes.specs.Refusals.{said};
ghost use Rattle.searching.specs.Search.{said_search};
ghost use Rattle.telling.specs.Answers.{told_plainly, plain_of};
ghost use Rattle.index_telling.specs.Values.{of_compared, plain_search, of_entries};

use key_symbols::FiveNumbers;
use outcomes::{Refusal, number_of};
use searching::Search;
use telling::Telling;
use telling::tell::{tell, tell_refusal};
use telling::words::as_word;
use units::{RowNumber, Spid};

// The seven values of identification, and the count.
fn tell_found(row: RowNumber, spid: Spid, n: FiveNumbers, compared: usize) -> Telling
    ensures { told_plainly result ≡ of_compared compared (answer (record { row = row.0; spid = spid.0; numbers = n })) }
{
    let number = as_word(row.0 as u64);
    let packet = as_word(spid.0 as u64);
    let apid = as_word(n.apid as u64);
    let ptype = as_word(n.ptype as u64);
    let stype = as_word(n.stype as u64);
    let pi1 = as_word(n.pi1);
    let pi2 = as_word(n.pi2);
    let count = as_word(compared as u64);
    tell([number, packet, apid, ptype, stype, pi1, pi2, count], 8)
}

// Refusal 25 with the count.
fn tell_missing(compared: usize) -> Telling
    ensures { told_plainly result ≡ of_compared compared (refused 25 0) }
{
    let count = as_word(compared as u64);
    Telling {
        number: number_of(Refusal::NoPidRow),
        place: 0,
        count: 1,
        values: [count, 0, 0, 0, 0, 0, 0, 0],
    }
}

pub fn tell_searched(search: Result<Search, Refusal>) -> Telling
    ensures { told_plainly result ≡ plain_search (said_search search) }
{
    match search {
        Ok(s) => match s.found {
            Some(id) => tell_found(id.row, id.spid, id.numbers, s.compared),
            None => tell_missing(s.compared),
        },
        Err(refusal) => tell_refusal(refusal),
    }
}

pub fn tell_made(made: Result<usize, Refusal>) -> Telling
    ensures { told_plainly result ≡ plain_of of_entries (said made) }
{
    match made {
        Ok(count) => {
            let entries = as_word(count as u64);
            tell([entries, 0, 0, 0, 0, 0, 0, 0], 1)
        }
        Err(refusal) => tell_refusal(refusal),
    }
}
