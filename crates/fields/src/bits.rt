// A run of bits as a number, gathered byte by byte.
ghost use Rattle.std.specs.Prelude.{◌≡◌, ℕ, ◌+◌, ◌*◌, ◌-◌, ◌/◌, ◌%◌, ◌^◌, ◌<◌, ◌≤◌, min, length};
ghost use Rattle.fields.specs.Bits.{number_at};

fn least(a: usize, b: usize) -> usize
    ensures { result ≡ min a b }
{
    if a < b { a } else { b }
}

// The `take` bits of a byte that follow its first `lead`.
fn part(b: u8, lead: usize, take: usize) -> u64
    requires { lead + take ≤ 8 }
    ensures { result ≡ b / 2 ^ (8 - (lead + take)) % 2 ^ take }
{
    ((b as u64) >> (8 - (lead + take))) % (1u64 << take)
}

// The number that `width` bits make, from bit `lead` of the byte `first` on. Byte and bit stay apart:
// a length in bits can pass a word.
pub(crate) fn gather(p: &[u8], first: usize, lead: usize, width: usize) -> u64
    requires { (width ≤ 64) × (lead < 8) × (first * 8 + lead + width ≤ length p.now * 8) }
    ensures { result ≡ number_at p.now (first * 8 + lead) width }
{
    let mut acc: u64 = 0;
    let mut byte = first;
    let mut bit = lead;
    let mut left = width;
    while 0 < left {
        let take = least(8 - bit, left);
        acc = (acc << take) + part(p[byte], bit, take);
        left -= take;
        byte += (bit + take) / 8;
        bit = (bit + take) % 8;
    }
    acc
}
