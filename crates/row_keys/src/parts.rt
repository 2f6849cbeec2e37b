// What a row says, put together part by part.
ghost use Rattle.std.specs.Prelude.{◌≡◌, cond, eqb};
ghost use Rattle.row_keys.specs.Parts.{no_name, no_keys, holding, holder, naming, counter, member};

use crate::records::{Counting, LineKeys, Named, RowKeys};
use symbols::Symbol;

const NO_SYMBOL: Symbol = Symbol {
    space: 0,
    a: 0,
    b: 0,
    c: 0,
};

pub fn named(given: bool, code: u8, key: Symbol) -> Named
    ensures { result ≡ cond given (record { code = code; key = key }) no_name }
{
    if given {
        return Named { code, key };
    }
    Named {
        code: 0,
        key: NO_SYMBOL,
    }
}

// A row that holds these keys, and names and counts nothing.
pub fn holding(verdict: u16, first: Option<Symbol>, second: Option<Symbol>, marks: u8) -> RowKeys
    ensures { result ≡ holding verdict first second marks }
{
    let none = Named {
        code: 0,
        key: NO_SYMBOL,
    };
    RowKeys {
        verdict,
        first,
        second,
        one: none,
        two: none,
        group: None,
        count: Counting {
            column: 0,
            number: 0,
        },
        marks,
    }
}

// A row that holds one key.
pub fn holder(verdict: u16, key: Symbol, marks: u8) -> RowKeys
    ensures { result ≡ holder verdict key marks }
{
    holding(verdict, Some(key), None, marks)
}

// The row, and what it names; where the first isn't given the second comes first.
pub fn naming(row: RowKeys, one: Named, two: Named) -> RowKeys
    ensures { result ≡ naming row one two }
{
    let mut named = row;
    if one.code == 0 {
        named.one = two;
        named.two = one;
        return named;
    }
    named.one = one;
    named.two = two;
    named
}

// A row that counts the rows of the group that goes by its key.
pub fn counter(verdict: u16, key: Symbol, column: u8, number: u32, marks: u8) -> RowKeys
    ensures { result ≡ counter verdict key column number marks }
{
    let mut row = holder(verdict, key, marks);
    let count = Counting { column, number };
    row.count = count;
    row
}

// A row that is counted in the group that its first column names, by the manner with this code.
pub fn member(verdict: u16, key: Symbol, group: Symbol, code: u8) -> RowKeys
    ensures { result ≡ member verdict key group code }
{
    let mut row = holder(verdict, key, 1);
    let named = Named { code, key: group };
    row.one = named;
    row.group = Some(group);
    row
}

// A row with one of reasons 1 to 8 holds, names and counts nothing.
pub fn blanked(read: LineKeys) -> LineKeys
    ensures keys_value { result.keys ≡ cond (eqb read.keys.verdict 0) read.keys (no_keys read.keys.verdict) }
    ensures next_value { result.next ≡ read.next }
{
    if read.keys.verdict == 0 {
        return read;
    }
    let keys = holding(read.keys.verdict, None, None, 0);
    let next = read.next;
    LineKeys { keys, next }
}
