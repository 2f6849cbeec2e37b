// Symbols and links at their places in the arrays.
ghost use Rattle.std.specs.Prelude.{◌≡◌, ◌<◌};
ghost use Rattle.symbols.specs.Arrays.{symbol_at, put_symbol, put_link, has_space};

use crate::Symbol;
use arrays::{put_half, put_word, word_at};

// The first links are those of the buckets, 1,024 for each key space.
pub(crate) const HEADS: usize = 16384;

pub(crate) fn wide(x: u16) -> usize
    ensures { (result ≡ x) × (result < 65536) }
{
    x as usize
}

pub(crate) fn symbol_at(words: &[u64], i: usize) -> Symbol
    requires { i < 65536 }
    ensures { result ≡ symbol_at words.now i }
{
    Symbol {
        space: word_at(words, 4 * i),
        a: word_at(words, 4 * i + 1),
        b: word_at(words, 4 * i + 2),
        c: word_at(words, 4 * i + 3),
    }
}

pub(crate) fn has_room(words: &[u64], links: &[u16], n: usize) -> bool
    ensures { result ≡ has_space words.now links.now n }
{
    if n < 65535 {
        if 4 * n + 3 < words.len() {
            return HEADS + 2 * n + 1 < links.len();
        }
        return false;
    }
    false
}

pub(crate) fn put(words: &mut [u64], n: usize, k: Symbol)
    requires { n < 65535 }
    ensures { words.new ≡ put_symbol words.old n k }
{
    put_word(words, 4 * n, k.space);
    put_word(words, 4 * n + 1, k.a);
    put_word(words, 4 * n + 2, k.b);
    put_word(words, 4 * n + 3, k.c);
}

pub(crate) fn link(links: &mut [u16], n: usize, place: usize)
    requires { n < 65535 }
    ensures { links.new ≡ put_link links.old n place }
{
    put_half(links, HEADS + 2 * n, 0);
    put_half(links, HEADS + 2 * n + 1, 0);
    put_half(links, place, (n + 1) as u16);
}
