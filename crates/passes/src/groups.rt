// Rows chained by the id of their group, so that a group's rows are met in their order without a search.
ghost use Rattle.std.specs.Prelude.{min};
ghost use Rattle.passes.specs.Groups.{Chained};

use crate::marked::{numbered, put_marked};
use arrays::{byte_at, half_at, put_half};

// `firsts` has one more than the first marked row of each id, `nexts` one more than the row after each row,
// 0 where there is none.
pub fn chain_rows(marks: &[u8], ids: &[u16], firsts: &mut [u16], nexts: &mut [u16], n: usize)
    ensures { Chained marks.now ids.now firsts.old nexts.old firsts.new nexts.new 0
        (min n 65535) }
{
    let mut i = numbered(n);
    while 0 < i {
        i -= 1;
        let id = half_at(ids, i);
        put_half(nexts, i, half_at(firsts, id as usize));
        put_marked(byte_at(marks, i), id, (i + 1) as u16, firsts);
    }
}
