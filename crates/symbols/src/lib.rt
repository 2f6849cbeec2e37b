// The symbol table: keys in lent arrays, each once, so that a key goes by a small number, its id.
#![tactic(auto)]

mod paths;
mod places;

ghost use Rattle.std.specs.Prelude.{◌≡◌};
ghost use Rattle.symbols.specs.Symbols.{same_symbol};
ghost use Rattle.symbols.specs.Searches.{found, Traced};
ghost use Rattle.symbols.specs.Interning.{Interns};

use arrays::{PLACES, half_at};
use paths::{bucket, link_from, turned};
use places::{HEADS, has_room, link, put, symbol_at, wide};

// Two keys for each row that arrays have a place for: as many does a row hold and name on the average.
pub const SYMBOLS: usize = 2 * PLACES;

// The words and the links of so many symbols.
pub const WORDS: usize = 4 * SYMBOLS;

pub const LINKS: usize = HEADS + 2 * SYMBOLS;

// No key has this id.
pub const NO_ID: u16 = 65535;

// A key: its key space and three words of its own.
#[derive(Clone, Copy)]
pub struct Symbol {
    pub space: u64,
    pub a: u64,
    pub b: u64,
    pub c: u64,
}

// The id of a key, NO_ID where it found no room, and how many symbols there are now.
#[derive(Clone, Copy)]
pub struct Interned {
    pub id: u16,
    pub count: usize,
}

// Where a search ended: one more than the id of the key, or 0, and the place of the last link.
#[derive(Clone, Copy)]
struct Trace {
    at: usize,
    place: usize,
}

fn same(k: Symbol, l: Symbol) -> bool
    ensures { result ≡ same_symbol k l }
{
    if k.a == l.a {
        if k.b == l.b {
            if k.c == l.c {
                return k.space == l.space;
            }
            return false;
        }
        return false;
    }
    false
}

// The links followed to a key.
fn follow(words: &[u64], links: &[u16], k: Symbol) -> Trace
    ensures { Traced words.now links.now k result }
{
    let mut trail = k;
    let mut place = bucket(k);
    let mut steps: usize = 65536;
    while 0 < steps {
        let at = wide(half_at(links, place));
        if at == 0 {
            return Trace {
                at: 0,
                place: place,
            };
        }
        if same(k, symbol_at(words, at - 1)) {
            return Trace {
                at: at,
                place: place,
            };
        }
        place = link_from(at - 1, trail);
        trail = turned(trail);
        steps -= 1;
    }
    Trace {
        at: 0,
        place: place,
    }
}

// The id of a key, or NO_ID.
pub fn find(words: &[u64], links: &[u16], k: Symbol) -> u16
    ensures { result ≡ found words.now links.now k }
{
    let trace = follow(words, links, k);
    if trace.at == 0 {
        return NO_ID;
    }
    (trace.at - 1) as u16
}

// The id of a key, which becomes symbol n unless it is found or there is no room for it.
pub fn intern(words: &mut [u64], links: &mut [u16], n: usize, k: Symbol) -> Interned
    ensures { Interns words.old links.old words.new links.new n k result }
{
    let trace = follow(words, links, k);
    if 0 < trace.at {
        return Interned {
            id: (trace.at - 1) as u16,
            count: n,
        };
    }
    if !has_room(words, links, n) {
        return Interned {
            id: NO_ID,
            count: n,
        };
    }
    put(words, n, k);
    link(links, n, trace.place);
    Interned {
        id: n as u16,
        count: n + 1,
    }
}
