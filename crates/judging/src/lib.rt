// The verdicts of rows from what their keys and namings were found to be, over arrays by row.
#![tactic(auto)]

ghost use Rattle.std.specs.Prelude.{◌≡◌, get_or};
ghost use Rattle.std.proofs.lemmas.List.Edits.{sets};
ghost use Rattle.laws.specs.Values.{tabulate};
ghost use Rattle.base_verdicts.specs.Judged.{circles_of, base_of, chained_at, good_at, cell_at, cells_by, cell_rows};

use arrays::PLACES;
use base_verdicts::{base_rows, next_rows};
use chain_steps::{NO_ROW, mark_zeros};
use chains::{mark_circles, mark_firm};
use kinds::kind_rows;
use names::{final_rows, firm_rows};

// A chain that ends has fewer rows than this.
const LONGEST: usize = PLACES + 1;

// Reasons 1 to 10 and 12 of the first n rows, by the next row of each.
fn judge_bases(
    own: &[u16],
    sound: &[u8],
    counts: &[u16],
    next: &[u16; PLACES],
    base: &mut [u16; PLACES],
    n: usize,
)
    ensures { base.new ≡ sets base.old 0
        (tabulate (λ i. base_of (get_or own.now i 0) (get_or sound.now i 0) (get_or counts.now i 0)
        (get_or (circles_of next.now n) i 0)) 0 n) }
{
    let mut circles = [0u8; PLACES];
    mark_circles(next, &mut circles, n);
    base_rows(own, sound, counts, &circles, base, n);
}

// Which of the first n rows are good along VALID chains, by what rows without reasons say of the other names.
fn chained_rows(
    kinds: &[u8; PLACES],
    base: &[u16; PLACES],
    codes1: &[u8],
    found1: &[u16],
    codes2: &[u8],
    found2: &[u16],
    next: &[u16; PLACES],
    chained: &mut [u8; PLACES],
    n: usize,
)
    ensures { chained.new ≡ sets chained.old 0
        (tabulate (chained_at kinds.now base.now codes1.now found1.now codes2.now found2.now
        next.now n) 0 n) }
{
    let mut clean = [0u8; PLACES];
    let mut firm = [0u8; PLACES];
    mark_zeros(base, &mut clean, n);
    firm_rows(
        kinds, &clean, base, codes1, found1, next, codes2, found2, &mut firm, n,
    );
    mark_firm(next, &firm, chained, LONGEST, n);
}

// Which of the first n rows are good, where all that they name is good along chains or names nothing.
fn good_rows(
    kinds: &[u8; PLACES],
    base: &[u16; PLACES],
    codes1: &[u8],
    found1: &[u16],
    codes2: &[u8],
    found2: &[u16],
    next: &[u16; PLACES],
    good: &mut [u8; PLACES],
    n: usize,
)
    ensures { good.new ≡ sets good.old 0 (tabulate (good_at kinds.now base.now
        codes1.now found1.now codes2.now found2.now next.now n) 0 n) }
{
    let mut chained = [0u8; PLACES];
    let mut cells = [0u16; PLACES];
    chained_rows(
        kinds,
        base,
        codes1,
        found1,
        codes2,
        found2,
        next,
        &mut chained,
        n,
    );
    final_rows(
        kinds, &chained, base, codes1, found1, codes2, found2, &mut cells, n,
    );
    mark_zeros(&cells, good, n);
}

// The verdicts of the first n rows by the reasons before their names, and by their names.
fn judge_names(
    kinds: &[u8; PLACES],
    base: &[u16; PLACES],
    codes1: &[u8],
    found1: &[u16],
    codes2: &[u8],
    found2: &[u16],
    next: &[u16; PLACES],
    cells: &mut [u16],
    n: usize,
)
    ensures { cells.new ≡ sets cells.old 0
        (tabulate (cell_at kinds.now base.now codes1.now found1.now codes2.now found2.now
        next.now n) 0 n) }
{
    let mut good = [0u8; PLACES];
    good_rows(
        kinds, base, codes1, found1, codes2, found2, next, &mut good, n,
    );
    final_rows(kinds, &good, base, codes1, found1, codes2, found2, cells, n);
}

// The verdicts of the first n rows by the kinds that rows are of, put to the cells.
fn judge_kinds(
    own: &[u16],
    sound: &[u8],
    counts: &[u16],
    codes1: &[u8],
    found1: &[u16],
    codes2: &[u8],
    found2: &[u16],
    kinds: &[u8; PLACES],
    cells: &mut [u16],
    n: usize,
)
    ensures { cells.new ≡ sets cells.old 0
        (cells_by own.now sound.now counts.now codes1.now found1.now codes2.now
        found2.now n kinds.now) }
{
    let mut next = [NO_ROW; PLACES];
    let mut base = [0u16; PLACES];
    next_rows(sound, codes1, found1, &mut next, n);
    judge_bases(own, sound, counts, &next, &mut base, n);
    judge_names(
        kinds, &base, codes1, found1, codes2, found2, &next, cells, n,
    );
}

// The verdicts of the first n rows, put to the cells. own: reasons 1 to 8; sound: 1 without reasons 1 to 9; counts: 0
// or reason 10; codes and found: what each row names in its two places, and the rows found; marks:
// the conditions that rows meet.
pub fn judge_rows(
    own: &[u16],
    sound: &[u8],
    counts: &[u16],
    codes1: &[u8],
    found1: &[u16],
    codes2: &[u8],
    found2: &[u16],
    marks: &[u8],
    cells: &mut [u16],
    n: usize,
)
    ensures { cells.new ≡ sets cells.old 0
        (cell_rows own.now sound.now counts.now codes1.now found1.now codes2.now
        found2.now marks.now n) }
{
    let mut kinds = [0u8; PLACES];
    kind_rows(marks, codes1, found1, codes2, found2, &mut kinds, n);
    judge_kinds(
        own, sound, counts, codes1, found1, codes2, found2, &kinds, cells, n,
    );
}
