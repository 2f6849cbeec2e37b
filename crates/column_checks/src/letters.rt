// Columns of one letter of a list.
ghost use Rattle.std.specs.Prelude.{◌≡◌, cond, ◌≤◌};
ghost use Rattle.std.proofs.Math.Seq.{slice};
ghost use Rattle.column_checks.specs.ColumnReasons.{is_in, listed};
ghost use Rattle.column_checks.specs.ColumnKinds.{all_letters, letters_at};

// The kinds of columns of one letter.
pub const YES_NO: u8 = 128;

pub const CATEGORY: u8 = 129;

pub const NATURE: u8 = 130;

pub const OFF_ENDS: u8 = 131;

pub const FORMAT: u8 = 132;

pub const RADIX: u8 = 133;

pub const LIMIT_VALUE: u8 = 134;

pub const LIMIT_CODING: u8 = 135;

pub const CHECK_TYPE: u8 = 136;

// Their lists, one after the other.
const LETTERS: [u8; 29] = *b"YNNSTRDPHSCPFIURDHOUCRAISHDCE";

// Whether a byte is one of the letters from `start` to before `end`.
fn is_among(b: u8, start: usize, end: usize) -> bool
    requires { (start ≤ end) × (end ≤ 29) }
    ensures { result ≡ is_in b (slice start end all_letters) }
{
    for i in start..end {
        if LETTERS[i] == b {
            return true;
        }
    }
    false
}

// Whether a byte is one of the letters of a kind.
fn is_letter(kind: u8, b: u8) -> bool
    requires { 128 ≤ kind }
    ensures { result ≡ is_in b (letters_at kind) }
{
    match kind {
        YES_NO => is_among(b, 0, 2),
        CATEGORY => is_among(b, 2, 5),
        NATURE => is_among(b, 5, 11),
        OFF_ENDS => is_among(b, 11, 13),
        FORMAT => is_among(b, 13, 16),
        RADIX => is_among(b, 16, 19),
        LIMIT_VALUE => is_among(b, 19, 21),
        LIMIT_CODING => is_among(b, 21, 24),
        CHECK_TYPE => is_among(b, 24, 29),
        _ => false,
    }
}

// Why a column of one letter is refused: 14, or 0.
pub(crate) fn letter_reason(text: &[u8], kind: u8) -> u8
    requires { 128 ≤ kind }
    ensures { result ≡ cond (listed (letters_at kind) text.now) 0 14 }
{
    if text.len() == 1 {
        if is_letter(kind, text[0]) {
            return 0;
        }
        return 14;
    }
    14
}
