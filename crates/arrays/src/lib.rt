// Lent arrays at any place: past the end stands 0, and what is put there is dropped.
#![tactic(auto)]

ghost use Rattle.std.specs.Prelude.{◌≡◌, length, get_or, set, replicate};

// Arrays by row have a place for each row of fourteen tables of 1,024 rows.
pub const PLACES: usize = 14336;

pub fn byte_at(bytes: &[u8], i: usize) -> u8
    ensures { result ≡ get_or bytes.now i 0 }
{
    if i < bytes.len() { bytes[i] } else { 0 }
}

pub fn half_at(halves: &[u16], i: usize) -> u16
    ensures { result ≡ get_or halves.now i 0 }
{
    if i < halves.len() { halves[i] } else { 0 }
}

pub fn word_at(words: &[u64], i: usize) -> u64
    ensures { result ≡ get_or words.now i 0 }
{
    if i < words.len() { words[i] } else { 0 }
}

pub fn put_byte(bytes: &mut [u8], i: usize, x: u8)
    ensures { bytes.new ≡ set bytes.old i x }
{
    if bytes.len() <= i {
        return;
    }
    bytes[i] = x;
}

pub fn put_half(halves: &mut [u16], i: usize, x: u16)
    ensures { halves.new ≡ set halves.old i x }
{
    if halves.len() <= i {
        return;
    }
    halves[i] = x;
}

pub fn put_word(words: &mut [u64], i: usize, x: u64)
    ensures { words.new ≡ set words.old i x }
{
    if words.len() <= i {
        return;
    }
    words[i] = x;
}

// Zeros all through.
pub fn clear_halves(halves: &mut [u16])
    ensures { halves.new ≡ replicate (length halves.old) 0 }
{
    for i in 0..halves.len() {
        halves[i] = 0;
    }
}
