// What the passes share: rows that are marked by 1, and numbers of rows, which are u16 from 1.
ghost use Rattle.std.specs.Prelude.{◌≡◌, min, ◌<◌};
ghost use Rattle.passes.specs.Marked.{put_marked};

use arrays::put_half;

pub(crate) fn put_marked(mark: u8, id: u16, x: u16, xs: &mut [u16])
    ensures { xs.new ≡ put_marked mark id x xs.old }
{
    if mark != 1 {
        return;
    }
    put_half(xs, id as usize, x);
}

// Rows past the 65,535th have no number.
pub(crate) fn numbered(n: usize) -> usize
    ensures { result ≡ min n 65535 }
{
    if n < 65535 { n } else { 65535 }
}
