// What is kept of a row, stored at its place in each column.
ghost use Rattle.std.specs.Prelude.{◌≡◌, ◌<◌, min};
ghost use Rattle.arrays.specs.Room.{most_places};
ghost use Rattle.kept.specs.Puts.{put_columns, halves_of, bytes_of};

use crate::interning::RowIds;
use arrays::{PLACES, put_byte, put_half};
use row_keys::records::RowKeys;

fn put_halves(halves: &mut [u16], i: usize, values: [u16; 8])
    requires { i < most_places }
    ensures { halves.new ≡ put_columns 0 halves.old i values }
{
    for c in 0..8 {
        put_half(halves, c * PLACES + i, values[c]);
    }
}

fn put_bytes(bytes: &mut [u8], i: usize, values: [u8; 5])
    requires { i < most_places }
    ensures { bytes.new ≡ put_columns 0 bytes.old i values }
{
    for c in 0..5 {
        put_byte(bytes, c * PLACES + i, values[c]);
    }
}

// Numbers from 65,535 on are kept as 65,535.
fn low_half(x: u32) -> u16
    ensures { result ≡ min x 65535 }
{
    if x < 65535 { x as u16 } else { 65535 }
}

// What is kept of a row, with where its line starts and the number of its table.
pub(crate) fn put_row(
    halves: &mut [u16],
    bytes: &mut [u8],
    i: usize,
    keys: RowKeys,
    ids: RowIds,
    start: u16,
    table: u8,
)
    requires { i < most_places }
    ensures halves_after { halves.new ≡ put_columns 0 halves.old i (halves_of keys ids start) }
    ensures bytes_after { bytes.new ≡ put_columns 0 bytes.old i (bytes_of keys table) }
{
    let number = low_half(keys.count.number);
    put_halves(
        halves,
        i,
        [
            keys.verdict,
            ids.key1,
            ids.key2,
            ids.name1,
            ids.name2,
            ids.group,
            number,
            start,
        ],
    );
    put_bytes(
        bytes,
        i,
        [
            keys.one.code,
            keys.two.code,
            keys.marks,
            keys.count.column,
            table,
        ],
    );
}
