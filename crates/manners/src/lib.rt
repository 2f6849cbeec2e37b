// The manners of naming by their code, the kinds of rows that they ask for, and the marks that tell of them.
#![tactic(auto)]

pub mod marks;

ghost use Rattle.std.specs.Prelude.{◌≡◌, get_or};
ghost use Rattle.manners.specs.Manners.{manner_at, kind_weight, is_met_by, is_second, with_second};

const COLUMNS: [u8; 10] = [0, 1, 2, 8, 12, 1, 1, 4, 6, 1];

const KINDS: [u8; 10] = [1, 2, 1, 4, 1, 1, 8, 32, 4, 16];

const CHAINED: [u8; 10] = [0, 0, 0, 1, 0, 0, 0, 0, 0, 0];

// The second row that is asked about: the column that names it, the weight of the condition on it,
// and that of having one.
const SECOND_COLUMN: u8 = 12;

const SECOND_CONDITION: u8 = 16;

const SECOND: u8 = 32;

// What a list has at a place, or past its end `none`.
fn at_or(values: &[u8], i: u64, none: u8) -> u8
    ensures { result ≡ get_or values.now i none }
{
    if i < values.len() as u64 {
        return values[i as usize];
    }
    none
}

// The column that names, from 1; 0 where nothing is named.
pub fn naming_column(code: u8) -> u8
    ensures { result ≡ (manner_at code).column }
{
    at_or(&COLUMNS, code as u64, 0)
}

// The weight of the kind of row that it asks for.
pub fn naming_kind(code: u8) -> u8
    ensures { result ≡ kind_weight (manner_at code).kind }
{
    at_or(&KINDS, code as u64, 1)
}

// Whether the VALID chain goes through it.
pub fn naming_chained(code: u8) -> bool
    ensures { result ≡ (manner_at code).chained }
{
    at_or(&CHAINED, code as u64, 0) == 1
}

// Whether a row with these marks meets the condition, or is of the kind, of a weight.
pub fn meets(marks: u8, weight: u8) -> bool
    ensures { result ≡ is_met_by marks weight }
{
    if weight == 0 {
        return false;
    }
    marks / weight % 2 == 1
}

// Whether what a naming found, a row with these marks, is the second row that is asked about.
pub fn is_second(code: u8, marks: u8) -> bool
    ensures { result ≡ is_second code marks }
{
    if naming_column(code) == SECOND_COLUMN {
        return meets(marks, SECOND_CONDITION);
    }
    false
}

// The marks of a row, with that of a second row or without.
pub fn with_second(marks: u8, second: bool) -> u8
    ensures { result ≡ with_second marks second }
{
    if second {
        return marks % SECOND + SECOND;
    }
    marks % SECOND
}
