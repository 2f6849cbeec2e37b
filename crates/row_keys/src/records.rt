// What a row says, as symbols.
use symbols::Symbol;

// What a column names: the code of its manner of naming, 0 where nothing is named, and the key.
#[derive(Clone, Copy)]
pub struct Named {
    pub code: u8,
    pub key: Symbol,
}

// The column that counts the rows of the group that goes by the row's first key, and its number; column 0: none does.
#[derive(Clone, Copy)]
pub struct Counting {
    pub column: u8,
    pub number: u32,
}

// verdict: of reasons 1 to 8. first, second: the keys that the row holds. one, two: what it names, by rising column.
// group: where it is counted. marks: the conditions that it meets, by their weights.
#[derive(Clone, Copy)]
pub struct RowKeys {
    pub verdict: u16,
    pub first: Option<Symbol>,
    pub second: Option<Symbol>,
    pub one: Named,
    pub two: Named,
    pub group: Option<Symbol>,
    pub count: Counting,
    pub marks: u8,
}

// The keys of a line, and where the next line starts.
#[derive(Clone, Copy)]
pub struct LineKeys {
    pub keys: RowKeys,
    pub next: usize,
}
