// The keys of a row become symbols, and the row keeps their ids.
ghost use Rattle.std.specs.Prelude.{◌≡◌, true, ◌+◌, ◌≤◌, is_some};
ghost use Rattle.symbols.specs.Arrays.{symbols, most_symbols};
ghost use Rattle.symbols.specs.Searches.{Table};
ghost use Rattle.row_keys.specs.Parts.{key_in, is_named};
ghost use Rattle.kept.specs.Ids.{Spacious, Fits, Entered, first_wanted, wanted, FirstEntered, RowEntered};

use row_keys::records::{Named, RowKeys};
use symbols::{Interned, NO_ID, Symbol, intern};

// The ids of the keys that a row holds and of its first naming, and how many symbols there are then.
#[derive(Clone, Copy)]
struct FirstIds {
    key1: u16,
    key2: u16,
    name1: u16,
    count: usize,
}

// The ids of all keys of a row, NO_ID where it has none, and how many symbols there are then.
#[derive(Clone, Copy)]
pub(crate) struct RowIds {
    pub key1: u16,
    pub key2: u16,
    pub name1: u16,
    pub name2: u16,
    pub group: u16,
    pub count: usize,
}

fn intern_slot(words: &mut [u64], links: &mut [u16], n: usize, slot: Option<Symbol>) -> Interned
    requires table { Table words.old links.old n }
    requires spacious { Spacious words.old links.old }
    requires fits { is_some slot ≡ true → Fits (symbols words.old n) n (key_in slot) }
    ensures { Entered words.old links.old words.new links.new n (is_some slot) (key_in slot) result }
{
    match slot {
        Some(key) => intern(words, links, n, key),
        None => Interned {
            id: NO_ID,
            count: n,
        },
    }
}

fn intern_named(words: &mut [u64], links: &mut [u16], n: usize, name: Named) -> Interned
    requires table { Table words.old links.old n }
    requires spacious { Spacious words.old links.old }
    requires fits { is_named name ≡ true → Fits (symbols words.old n) n name.key }
    ensures { Entered words.old links.old words.new links.new n (is_named name) name.key result }
{
    if name.code != 0 {
        let key = name.key;
        return intern(words, links, n, key);
    }
    Interned {
        id: NO_ID,
        count: n,
    }
}

fn intern_first(words: &mut [u64], links: &mut [u16], n: usize, keys: RowKeys) -> FirstIds
    requires table { Table words.old links.old n }
    requires spacious { Spacious words.old links.old }
    requires keys_bound { n + first_wanted keys ≤ most_symbols }
    ensures { FirstEntered words.old links.old words.new links.new n keys result }
{
    let slot1 = keys.first;
    let slot2 = keys.second;
    let name = keys.one;
    let first = intern_slot(words, links, n, slot1);
    let second = intern_slot(words, links, first.count, slot2);
    let one = intern_named(words, links, second.count, name);
    FirstIds {
        key1: first.id,
        key2: second.id,
        name1: one.id,
        count: one.count,
    }
}

// All that a row holds, names and is counted in becomes symbols.
pub(crate) fn intern_row(words: &mut [u64], links: &mut [u16], n: usize, keys: RowKeys) -> RowIds
    requires table { Table words.old links.old n }
    requires spacious { Spacious words.old links.old }
    requires keys_bound { n + wanted keys ≤ most_symbols }
    ensures { RowEntered words.old links.old words.new links.new n keys result }
{
    let name = keys.two;
    let slot = keys.group;
    let ids = intern_first(words, links, n, keys);
    let two = intern_named(words, links, ids.count, name);
    let group = intern_slot(words, links, two.count, slot);
    RowIds {
        key1: ids.key1,
        key2: ids.key2,
        name1: ids.name1,
        name2: two.id,
        group: group.id,
        count: group.count,
    }
}
