// Which row holds an id.
ghost use Rattle.std.specs.Prelude.{min};
ghost use Rattle.passes.specs.Holders.{Noted};

use crate::marked::{numbered, put_marked};
use arrays::{byte_at, half_at};

// The id of each marked row of the first n leads to it.
pub fn note_rows(marks: &[u8], ids: &[u16], rows: &mut [u16], n: usize)
    ensures { Noted marks.now ids.now rows.old rows.new (min n 65535) }
{
    let most = numbered(n);
    for i in 0..most {
        put_marked(byte_at(marks, i), half_at(ids, i), (i + 1) as u16, rows);
    }
}
