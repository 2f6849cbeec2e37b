// Where a search for a key starts, and how it turns.
ghost use Rattle.std.specs.Prelude.{◌≡◌, ◌<◌};
ghost use Rattle.symbols.specs.Arrays.{bucket_of, link_from, turned};

use crate::Symbol;
use crate::places::HEADS;

pub(crate) fn bucket(k: Symbol) -> usize
    ensures { result ≡ bucket_of k }
{
    let hash = (k.a % 65521 + k.b % 65521 * 31 + k.c % 65521 * 37) % 1021;
    (k.space % 16 * 1024 + hash) as usize
}

pub(crate) fn link_from(i: usize, trail: Symbol) -> usize
    requires { i < 65536 }
    ensures { result ≡ link_from i trail }
{
    HEADS + 2 * i + (trail.a % 2) as usize
}

pub(crate) fn turned(k: Symbol) -> Symbol
    ensures { result ≡ turned k }
{
    if k.a == 0 {
        return Symbol {
            space: k.space,
            a: k.b,
            b: k.c,
            c: 0,
        };
    }
    Symbol {
        space: k.space,
        a: k.a / 2,
        b: k.b,
        c: k.c,
    }
}
