// Which rows are well-formed, the rows that namings lead to, and reason 10.
#![tactic(auto)]

ghost use Rattle.std.specs.Prelude.{◌≡◌, eqb, get_or};
ghost use Rattle.std.proofs.lemmas.List.Edits.{sets};
ghost use Rattle.laws.specs.Prefix.{flag};
ghost use Rattle.laws.specs.Values.{tabulate};
ghost use Rattle.passes.specs.Marked.{under};
ghost use Rattle.findings.specs.Found.{row_linked, count_finding};

use arrays::{byte_at, half_at, put_half};
use chain_steps::{NO_ROW, mark_zeros};

// Reason 10, to which the column that counts is added.
const DIFFERS: u16 = 10 * 256;

// Marks the rows without reasons 1 to 8.
pub fn mark_formed(own: &[u16], formed: &mut [u8], n: usize)
    ensures { formed.new ≡ sets formed.old 0 (tabulate (λ i. flag (eqb (get_or own.now i 0) 0)) 0 n) }
{
    mark_zeros(own, formed, n);
}

// A row instead of one more than it.
fn row_of(more: u16) -> u16
    ensures { result ≡ row_linked more }
{
    if more == 0 { NO_ROW } else { more - 1 }
}

// The rows that hold the keys which rows name. `holders` has one more than a row that holds a key, by the key's id.
pub fn find_rows(names: &[u16], holders: &[u16], found: &mut [u16], n: usize)
    ensures { found.new ≡ sets found.old 0 (tabulate (λ i. row_linked (under holders.now names.now i)) 0 n) }
{
    for i in 0..n {
        let id = half_at(names, i);
        let row = row_of(half_at(holders, id as usize));
        put_half(found, i, row);
    }
}

fn count_of(column: u8, number: u16, tally: u16) -> u16
    ensures { result ≡ count_finding column number tally }
{
    if column == 0 {
        return 0;
    }
    if tally == number {
        return 0;
    }
    DIFFERS + (column as u16)
}

// 0, or reason 10: the rows of the group that goes by a row's first key are another number than it says.
pub fn count_rows(
    columns: &[u8],
    keys: &[u16],
    numbers: &[u16],
    tallies: &[u16],
    counts: &mut [u16],
    n: usize,
)
    ensures { counts.new ≡ sets counts.old 0
        (tabulate (λ i. count_finding (get_or columns.now i 0) (get_or numbers.now i 0)
        (under tallies.now keys.now i)) 0 n) }
{
    for i in 0..n {
        let id = half_at(keys, i);
        let tally = half_at(tallies, id as usize);
        let cell = count_of(byte_at(columns, i), half_at(numbers, i), tally);
        put_half(counts, i, cell);
    }
}
