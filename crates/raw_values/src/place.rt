// Where a parameter's occurrences are.
ghost use Rattle.std.specs.Prelude.{◌≡◌, ◌+◌, ◌*◌, ◌<◌};

use units::ByteOffset;

// A byte of the packet and a number of bits, as a line holds them: in 32 bits.
#[derive(Clone, Copy)]
pub struct LineByte(pub u32);

#[derive(Clone, Copy)]
pub struct LineBits(pub u32);

// By four columns of a plf row.
#[derive(Clone, Copy)]
pub struct Location {
    pub offby: LineByte,
    pub offbi: LineBits,
    pub nbocc: u32,
    pub lgocc: LineBits,
}

// A byte of the packet and a bit of it, kept apart: a start in bits can pass a word.
#[derive(Clone, Copy)]
pub(crate) struct FieldStart {
    pub byte: ByteOffset,
    pub bit: usize,
}

// Where occurrence k starts.
pub(crate) fn start_of(location: Location, k: usize) -> FieldStart
    requires { k < location.nbocc }
    ensures { (8 * result.byte.0 + result.bit ≡ 8 * location.offby.0 + location.offbi.0 + k * location.lgocc.0) × (result.bit < 8) }
{
    let bits = location.offbi.0 as usize + k * location.lgocc.0 as usize;
    FieldStart {
        byte: ByteOffset(location.offby.0 as usize + bits / 8),
        bit: bits % 8,
    }
}
