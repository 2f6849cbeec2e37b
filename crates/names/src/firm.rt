// The rows of a VALID chain that are firm.
ghost use Rattle.std.specs.Prelude.{◌≡◌, cond};
ghost use Rattle.std.proofs.lemmas.List.Edits.{sets};
ghost use Rattle.laws.specs.Values.{tabulate};
ghost use Rattle.manners.specs.Manners.{manner_at};
ghost use Rattle.met_names.specs.Names.{asked_at, met_at, firm_of, firm_at};

use arrays::{byte_at, half_at};
use chain_steps::{put_flag, row_at};
use manners::naming_chained;
use met_names::{is_asked, is_met};

// Whether what a row names first lets it be firm: the next row is of the kind asked, or else the naming is met.
fn is_linked(kinds: &[u8], clean: &[u8], code: u8, found: u16, next: u16) -> bool
    ensures { result ≡ cond (manner_at code).chained (asked_at kinds.now code next) (met_at kinds.now clean.now code found) }
{
    if naming_chained(code) {
        return is_asked(kinds, code, next);
    }
    is_met(kinds, clean, code, found)
}

// Whether a row of a chain is firm.
fn is_firm(
    kinds: &[u8],
    clean: &[u8],
    base: u16,
    code1: u8,
    found1: u16,
    next: u16,
    code2: u8,
    found2: u16,
) -> bool
    ensures { result ≡ firm_of kinds.now clean.now base code1 found1 next code2 found2 }
{
    if base != 0 {
        return false;
    }
    if is_linked(kinds, clean, code1, found1, next) {
        return is_met(kinds, clean, code2, found2);
    }
    false
}

// Which of the first n rows are firm.
pub fn firm_rows(
    kinds: &[u8],
    clean: &[u8],
    base: &[u16],
    codes1: &[u8],
    found1: &[u16],
    next: &[u16],
    codes2: &[u8],
    found2: &[u16],
    firm: &mut [u8],
    n: usize,
)
    ensures { firm.new ≡ sets firm.old 0
        (tabulate (firm_at kinds.now base.now codes1.now found1.now codes2.now found2.now
        clean.now next.now) 0 n) }
{
    for i in 0..n {
        let firmly = is_firm(
            kinds,
            clean,
            half_at(base, i),
            byte_at(codes1, i),
            row_at(found1, i),
            row_at(next, i),
            byte_at(codes2, i),
            row_at(found2, i),
        );
        put_flag(firm, i, firmly);
    }
}
