// The first pass: every row of the tables is read once, its keys become symbols, and its columns are stored.
ghost use Rattle.std.specs.Prelude.{◌≡◌, map, ℕ, ◌+◌, ◌*◌, ◌≤◌, ◌<◌, length, get_or};
ghost use Rattle.arrays.specs.Room.{most_places};
ghost use Rattle.symbols.specs.Arrays.{most_symbols};
ghost use Rattle.lines.specs.Lines.{lines_of};
ghost use Rattle.verdicts.specs.Entries.{table_count, carried_at, all_rows};
ghost use Rattle.verdicts.specs.Answer.{too_long, too_many_rows};
ghost use Rattle.kept.specs.Stored.{Stored};
ghost use Rattle.kept.specs.Ids.{wanted};
ghost use Rattle.kept.specs.Asked.{asks};
ghost use Rattle.kept.specs.FirstPass.{arrays, Ready, RowKept, TableKept, Situations, SameSizes, HoldBytes};

use crate::KeptCounts;
use crate::columns::put_row;
use crate::interning::intern_row;
use keys::line_keys;
use row_keys::records::RowKeys;
use tables::{TABLES, kind_of, table_at};

// Row i, whose line starts at a place of its table; how many symbols there are then.
fn keep_row(
    words: &mut [u64],
    links: &mut [u16],
    n: usize,
    halves: &mut [u16],
    bytes: &mut [u8],
    i: usize,
    keys: RowKeys,
    start: u16,
    table: u8,
) -> usize
    requires ready { Ready (arrays words.old links.old n halves.old bytes.old) }
    requires keys_bound { (n + wanted keys ≤ most_symbols) × (i < most_places) }
    ensures { RowKept (arrays words.old links.old n halves.old bytes.old)
        (arrays words.new links.new result halves.new bytes.new) keys i start table }
{
    let ids = intern_row(words, links, n, keys);
    put_row(halves, bytes, i, keys, ids, start, table);
    ids.count
}

// The rows of table t, stored from a place on.
fn keep_table(
    table: &[u8],
    t: usize,
    from: usize,
    words: &mut [u64],
    links: &mut [u16],
    n: usize,
    halves: &mut [u16],
    bytes: &mut [u8],
) -> KeptCounts
    requires ready { Ready (arrays words.old links.old n halves.old bytes.old) }
    requires t_lt_table_count { (t < table_count) × (length table.now ≤ 65536) }
    requires table_bound { (from + length (lines_of table.now) ≤ most_places) × (n + length (lines_of table.now) * asks (carried_at t) ≤ most_symbols) }
    ensures rows_value { result.rows ≡ from + length (lines_of table.now) }
    ensures table_kept { TableKept (arrays words.old links.old n halves.old bytes.old)
        (arrays words.new links.new result.symbols halves.new bytes.new)
        (carried_at t) t table.now from (length (lines_of table.now)) }
    ensures by_index { (i : ℕ) → get_or table.now i 0 < 256 }
{
    let mut count = n;
    let mut j: usize = 0;
    let mut a: usize = 0;
    while a < table.len() {
        let i = from + j;
        let line = line_keys(kind_of(t), table, a);
        let keys = line.keys;
        let start = a as u16;
        count = keep_row(words, links, count, halves, bytes, i, keys, start, t as u8);
        j += 1;
        a = line.next;
    }
    KeptCounts {
        rows: from + j,
        symbols: count,
    }
}

// The rows of all tables.
pub(crate) fn keep_tables(
    tables: [&[u8]; TABLES],
    words: &mut [u64],
    links: &mut [u16],
    halves: &mut [u16],
    bytes: &mut [u8],
) -> KeptCounts
    requires tables_value { (too_long (map (λ x. x.now) tables) ≡ 0) × (too_many_rows (map (λ x. x.now) tables) ≡ 0) }
    requires ready { Ready (arrays words.old links.old 0 halves.old bytes.old) }
    ensures rows_value { result.rows ≡ length (all_rows (map (λ x. x.now) tables.entry)) }
    ensures stored { Stored (all_rows (map (λ x. x.now) tables.entry))
        words.new links.new result.symbols halves.new bytes.new }
    ensures situations { Situations (map (λ x. x.now) tables.entry) halves.new bytes.new result.rows }
    ensures same_sizes { SameSizes (arrays words.old links.old 0 halves.old bytes.old)
        (arrays words.new links.new result.symbols halves.new bytes.new) }
    ensures hold_bytes { HoldBytes (map (λ x. x.now) tables.entry) }
{
    let mut rows: usize = 0;
    let mut symbols: usize = 0;
    for t in 0..TABLES {
        let kept = keep_table(
            table_at(tables, t),
            t,
            rows,
            words,
            links,
            symbols,
            halves,
            bytes,
        );
        rows = kept.rows;
        symbols = kept.symbols;
    }
    KeptCounts { rows, symbols }
}
