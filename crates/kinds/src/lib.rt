// The kinds that rows are of: the conditions that they meet, and whether they lead to a second row that is asked about.
#![tactic(auto)]

ghost use Rattle.std.specs.Prelude.{◌≡◌};
ghost use Rattle.std.proofs.lemmas.List.Edits.{sets};
ghost use Rattle.laws.specs.Values.{tabulate};
ghost use Rattle.kinds.specs.Kinds.{second_at, kinds_of, kinds_at};

use arrays::{byte_at, put_byte};
use chain_steps::{NO_ROW, row_at};
use manners::{is_second, with_second};

// Whether a naming leads to a second row.
fn has_second(marks: &[u8], code: u8, found: u16) -> bool
    ensures { result ≡ second_at marks.now code found }
{
    if found == NO_ROW {
        return false;
    }
    is_second(code, byte_at(marks, found as usize))
}

fn kinds_of(marks: &[u8], own: u8, code1: u8, found1: u16, code2: u8, found2: u16) -> u8
    ensures { result ≡ kinds_of marks.now own code1 found1 code2 found2 }
{
    if has_second(marks, code1, found1) {
        return with_second(own, true);
    }
    with_second(own, has_second(marks, code2, found2))
}

// The kinds of the first n rows, by the conditions that they meet and what their two namings found.
pub fn kind_rows(
    marks: &[u8],
    codes1: &[u8],
    found1: &[u16],
    codes2: &[u8],
    found2: &[u16],
    kinds: &mut [u8],
    n: usize,
)
    ensures { kinds.new ≡ sets kinds.old 0
        (tabulate (kinds_at marks.now codes1.now found1.now codes2.now found2.now) 0 n) }
{
    for i in 0..n {
        let kind = kinds_of(
            marks,
            byte_at(marks, i),
            byte_at(codes1, i),
            row_at(found1, i),
            byte_at(codes2, i),
            row_at(found2, i),
        );
        put_byte(kinds, i, kind);
    }
}
