// Bits in hexadecimal digits.
#![tactic(auto)]

ghost use Rattle.std.specs.Prelude.{◌≡◌, ◌<◌, length, []};
ghost use Rattle.hex_answers.specs.Hexadecimal.{hex_digit, hexadecimal, double_answer, bits_answer, validity_words};

use answers::answer::{Answer, one, say_words, says};

fn hex_digit(d: u64) -> u8
    requires { d < 16 }
    ensures { result ≡ hex_digit d }
{
    if d < 10 { 48 + d as u8 } else { 55 + d as u8 }
}

// As many of its last digits as there are places.
fn spell_hex(n: u64, out: &mut [u8])
    ensures { out.new ≡ hexadecimal (length out.old) n }
{
    let mut i = out.len();
    let mut rest = n;
    while 0 < i {
        i -= 1;
        out[i] = hex_digit(rest % 16);
        rest /= 16;
    }
}

// A double, by its bits.
pub fn say_double(bits: u64) -> Answer
    ensures { result ≡ double_answer bits }
{
    let mut text = *b"double 0000000000000000";
    spell_hex(bits, &mut text[7..]);
    say_words(&text)
}

// Bits that were read, after how many they are.
pub fn say_bits(pattern: u64, width: u32) -> Answer
    ensures { result ≡ bits_answer [] pattern width }
{
    let mut text = *b"# bits 0000000000000000";
    spell_hex(pattern, &mut text[7..]);
    says(&text, false, one(width as u64))
}

// And whether the reading is valid.
pub fn say_bits_read(pattern: u64, width: u32, valid: bool) -> Answer
    ensures { result ≡ bits_answer (validity_words valid) pattern width }
{
    if valid {
        let mut text = *b"# bits 0000000000000000, valid";
        spell_hex(pattern, &mut text[7..23]);
        return says(&text, false, one(width as u64));
    }
    let mut other = *b"# bits 0000000000000000, invalid";
    spell_hex(pattern, &mut other[7..23]);
    says(&other, false, one(width as u64))
}
