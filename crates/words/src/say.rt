// Words, numbers and names on standard output.
use lines::columns::part;
use name_bytes::Name;

// A write that fails is not told: the text, or the rest of it, is then missing.
pub fn words(rt: &impl Print, text: &[u8]) {
    let _ = rt.write_all(text);
}

pub fn number(rt: &impl Print, n: usize) {
    let _ = rt.print(n);
}

pub fn name(rt: &impl Print, name: Name) {
    let bytes = name.bytes;
    words(rt, part(&bytes, 0, name.len));
}
