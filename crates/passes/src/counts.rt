// How many rows have an id.
ghost use Rattle.std.specs.Prelude.{◌≡◌, min, ◌+◌};
ghost use Rattle.passes.specs.Counts.{Counted};

use crate::marked::put_marked;
use arrays::{byte_at, half_at};

fn one_more(count: u16) -> u16
    ensures { result ≡ min (count + 1) 65535 }
{
    if count < 65535 { count + 1 } else { 65535 }
}

// Each marked row of the first n counts under its id.
pub fn count_ids(marks: &[u8], ids: &[u16], counts: &mut [u16], n: usize)
    ensures { Counted marks.now ids.now counts.old counts.new n }
{
    for i in 0..n {
        let id = half_at(ids, i);
        let count = one_more(half_at(counts, id as usize));
        put_marked(byte_at(marks, i), id, count, counts);
    }
}
