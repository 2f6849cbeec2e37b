// Arrays by row. A read past the end is no row; a write past it does nothing.
#![tactic(auto)]

ghost use Rattle.std.specs.Prelude.{◌≡◌, eqb, get_or, set};
ghost use Rattle.std.proofs.lemmas.List.Edits.{sets};
ghost use Rattle.laws.specs.Prefix.{flag};
ghost use Rattle.laws.specs.Values.{tabulate};
ghost use Rattle.chain_steps.specs.Chains.{no_row};

use arrays::half_at;

pub const NO_ROW: u16 = 65535;

// The same as a place.
pub const NO_NEXT: usize = 65535;

pub fn row_at(rows: &[u16], i: usize) -> u16
    ensures { result ≡ get_or rows.now i no_row }
{
    if i < rows.len() { rows[i] } else { NO_ROW }
}

fn wide(x: u16) -> usize
    ensures { result ≡ x }
{
    x as usize
}

// The row after row i, or NO_NEXT.
pub fn next_row(next: &[u16], i: usize) -> usize
    ensures { result ≡ get_or next.now i no_row }
{
    wide(row_at(next, i))
}

pub fn depth_at(depths: &[u16], i: usize) -> usize
    ensures { result ≡ get_or depths.now i 0 }
{
    wide(half_at(depths, i))
}

// A test as a mark.
pub fn put_flag(marks: &mut [u8], i: usize, test: bool)
    ensures { marks.new ≡ set marks.old i (flag test) }
{
    if i < marks.len() {
        if test {
            marks[i] = 1;
        } else {
            marks[i] = 0;
        }
    }
}

// Marks those of the first n rows whose verdict is 0.
pub fn mark_zeros(cells: &[u16], zeros: &mut [u8], n: usize)
    ensures { zeros.new ≡ sets zeros.old 0 (tabulate (λ i. flag (eqb (get_or cells.now i 0) 0)) 0 n) }
{
    for i in 0..n {
        let cell = half_at(cells, i);
        put_flag(zeros, i, cell == 0);
    }
}
