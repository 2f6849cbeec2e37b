// Names: a byte array and a length. Bytes past the length are 0.
#![tactic(auto)]

ghost use Rattle.std.specs.Prelude.{◌≡◌, ◌&&◌, ◌++◌, ◌≤◌, eqb, length, drop};
ghost use Rattle.name_bytes.specs.Names.{name_of, curve_name_of, same_bytes, same_name, same_curve_name};

#[derive(Clone, Copy)]
pub struct Name {
    pub bytes: [u8; 8],
    pub len: usize,
}

#[derive(Clone, Copy)]
pub struct CurveName {
    pub bytes: [u8; 10],
    pub len: usize,
}

// Writes a text to the front of `to`, whose further bytes stay.
fn put(text: &[u8], to: &mut [u8])
    requires { length text.now ≤ length to.old }
    ensures { to.new ≡ text.now ++ drop (length text.now) to.old }
{
    for i in 0..text.len() {
        to[i] = text[i];
    }
}

// The name that a text of at most eight bytes is. A longer one names nothing, as the empty one does.
pub fn name_of(text: &[u8]) -> Name
    ensures { result ≡ name_of text.now }
{
    let mut bytes = [0u8; 8];
    if text.len() <= 8 {
        put(text, &mut bytes);
        return Name {
            bytes,
            len: text.len(),
        };
    }
    Name { bytes, len: 0 }
}

// The same of a curve's name, of at most ten bytes.
pub fn curve_name_of(text: &[u8]) -> CurveName
    ensures { result ≡ curve_name_of text.now }
{
    let mut bytes = [0u8; 10];
    if text.len() <= 10 {
        put(text, &mut bytes);
        return CurveName {
            bytes,
            len: text.len(),
        };
    }
    CurveName { bytes, len: 0 }
}

// Whether two texts are the same, byte by byte.
fn same_bytes(a: &[u8], b: &[u8]) -> bool
    ensures { result ≡ same_bytes a.now b.now }
{
    if a.len() != b.len() {
        return false;
    }
    for i in 0..a.len() {
        if a[i] != b[i] {
            return false;
        }
    }
    true
}

// Whether two texts of n and m bytes, each kept at the front of an array, are the same.
fn same_kept(n: usize, a: &[u8], m: usize, b: &[u8]) -> bool
    ensures { result ≡ (eqb n m && same_bytes a.now b.now) }
{
    if n != m {
        return false;
    }
    same_bytes(a, b)
}

// Whether two names are the same.
pub fn same_name(a: Name, b: Name) -> bool
    ensures { result ≡ same_name a b }
{
    let x = a.bytes;
    let y = b.bytes;
    same_kept(a.len, &x, b.len, &y)
}

pub fn same_curve_name(a: CurveName, b: CurveName) -> bool
    ensures { result ≡ same_curve_name a b }
{
    let x = a.bytes;
    let y = b.bytes;
    same_kept(a.len, &x, b.len, &y)
}
