// How many rows are good.
ghost use Rattle.std.specs.Prelude.{◌≡◌};
ghost use Rattle.verdicts.specs.Answer.{zeros};

pub(crate) fn good_rows(cells: &[u16]) -> usize
    ensures { result ≡ zeros cells.now }
{
    let mut good: usize = 0;
    let mut i: usize = 0;
    while i < cells.len() {
        if cells[i] == 0 {
            good += 1;
        }
        i += 1;
    }
    good
}
