// Numbers and flags as values.
ghost use Rattle.std.specs.Prelude.{◌≡◌};
ghost use Rattle.telling.specs.Words.{word, flag_number};

// A number of 64 bits as the i64 of the same bits.
pub fn as_word(n: u64) -> i64
    ensures { result ≡ word n }
{
    if n < 9223372036854775808 {
        return n as i64;
    }
    let below = (18446744073709551615 - n) as i64;
    -1 - below
}

pub fn as_flag(yes: bool) -> i64
    ensures { result ≡ flag_number yes }
{
    if yes { 1 } else { 0 }
}
