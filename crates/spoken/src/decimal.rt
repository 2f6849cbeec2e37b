// A number's decimal digits at a place of a line.
ghost use Rattle.std.specs.Prelude.{◌≡◌};
ghost use Rattle.spoken.specs.Spoken.{decimal, matched_all};

use crate::fit::match_text;

pub(crate) fn match_decimal(line: &[u8], at: usize, n: u64) -> usize
    ensures { result ≡ matched_all line.now at (decimal n) }
{
    let mut digits = [0u8; 20];
    let count = io::decimal(n, &mut digits);
    match_text(line, at, &digits[..count])
}
