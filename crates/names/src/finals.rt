// The verdicts of rows, with reason 11.
ghost use Rattle.std.specs.Prelude.{◌≡◌};
ghost use Rattle.std.proofs.lemmas.List.Edits.{sets};
ghost use Rattle.laws.specs.Values.{tabulate};
ghost use Rattle.met_names.specs.Names.{name_at, final_of, final_at};

use arrays::{byte_at, half_at, put_half};
use chain_steps::row_at;
use manners::naming_column;
use met_names::is_met;

// Reason 11, to which its column is added.
const NOT_THERE: u16 = 11 * 256;

fn name_verdict(kinds: &[u8], good: &[u8], code: u8, found: u16) -> u16
    ensures { result ≡ name_at kinds.now good.now code found }
{
    if is_met(kinds, good, code, found) {
        return 0;
    }
    NOT_THERE + (naming_column(code) as u16)
}

fn final_of(
    kinds: &[u8],
    good: &[u8],
    base: u16,
    code1: u8,
    found1: u16,
    code2: u8,
    found2: u16,
) -> u16
    ensures { result ≡ final_of kinds.now good.now base code1 found1 code2 found2 }
{
    if base != 0 {
        return base;
    }
    let one = name_verdict(kinds, good, code1, found1);
    if one != 0 {
        return one;
    }
    name_verdict(kinds, good, code2, found2)
}

// The verdicts of the first n rows, where it is marked which rows are good.
pub fn final_rows(
    kinds: &[u8],
    good: &[u8],
    base: &[u16],
    codes1: &[u8],
    found1: &[u16],
    codes2: &[u8],
    found2: &[u16],
    cells: &mut [u16],
    n: usize,
)
    ensures { cells.new ≡ sets cells.old 0
        (tabulate (final_at kinds.now base.now codes1.now found1.now codes2.now found2.now
        good.now) 0 n) }
{
    for i in 0..n {
        let cell = final_of(
            kinds,
            good,
            half_at(base, i),
            byte_at(codes1, i),
            row_at(found1, i),
            byte_at(codes2, i),
            row_at(found2, i),
        );
        put_half(cells, i, cell);
    }
}
