// Whether a list is the index of loaded tables.
#![tactic(auto)]

ghost use Rattle.std.specs.Prelude.{◌≡◌, ◌&&◌, ◌||◌, map, eqb};
ghost use Rattle.packet_order.specs.Order as order;
ghost use Rattle.packet_index.specs.Index.{is_packet, numbers_at, is_before, rising, every, is_index};
ghost use Rattle.index_entries.specs.Loaded.{packets_in};

use index_entries::{count_packets, entry_at, row_of};
use key_symbols::FiveNumbers;
use packet_order::{Order, compare};
use tables::TABLES;

// Whether an entry may stand at place i: after none, or after the last.
fn follows(i: usize, last: FiveNumbers, numbers: FiveNumbers) -> bool
    ensures { result ≡ (eqb i 0 || is_before (order.compared last numbers)) }
{
    if i == 0 {
        return true;
    }
    let order = compare(last, numbers);
    match order {
        Order::Before => true,
        Order::Same => false,
        Order::After => false,
    }
}

// Whether the entries are packets that rise.
fn rises(
    tables: [&[u8]; TABLES],
    words: &[u64],
    links: &[u16],
    columns: &[u16],
    index: &[u16],
) -> bool
    ensures { result
        ≡ (every (is_packet (packets_in (map (λ x. x.now) tables.entry) words.now links.now columns.now)) index.now
        && rising (map (numbers_at (packets_in (map (λ x. x.now) tables.entry) words.now links.now columns.now))
        index.now)) }
{
    let mut last = FiveNumbers {
        ptype: 0,
        stype: 0,
        apid: 0,
        pi1: 0,
        pi2: 0,
    };
    for i in 0..index.len() {
        let Ok(numbers) = entry_at(tables, words, links, columns, row_of(index[i])) else {
            return false;
        };
        if !follows(i, last, numbers) {
            return false;
        }
        last = numbers;
    }
    true
}

// The entries are packets that rise, so all different: as many as there are packets are all of them.
pub fn is_index(
    tables: [&[u8]; TABLES],
    words: &[u64],
    links: &[u16],
    columns: &[u16],
    index: &[u16],
) -> bool
    ensures { result
        ≡ is_index (packets_in (map (λ x. x.now) tables.entry) words.now links.now columns.now) index.now }
{
    if !rises(tables, words, links, columns, index) {
        return false;
    }
    let count = count_packets(tables, words, links, columns);
    index.len() == count
}
