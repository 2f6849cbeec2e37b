// Which rows share no key.
ghost use Rattle.std.specs.Prelude.{◌≡◌};
ghost use Rattle.passes.specs.Holders.{Filled};
ghost use Rattle.passes.specs.Sound.{sound_of, sound_at};

use arrays::{byte_at, half_at, put_byte};

fn sound_of(formed: u8, holders1: u16, holders2: u16) -> u8
    ensures { result ≡ sound_of formed holders1 holders2 }
{
    if formed == 1 {
        if holders1 <= 1 {
            if holders2 <= 1 {
                return 1;
            }
            return 0;
        }
        return 0;
    }
    0
}

// Of the first n rows, 1 for those that are well-formed and alone in holding their keys, 0 for the others.
pub fn mark_sound(
    formed: &[u8],
    key1: &[u16],
    key2: &[u16],
    holders: &[u16],
    sound: &mut [u8],
    n: usize,
)
    ensures { Filled (sound_at formed.now key1.now key2.now holders.now) sound.old
        sound.new n }
{
    for i in 0..n {
        let one = half_at(holders, half_at(key1, i) as usize);
        let two = half_at(holders, half_at(key2, i) as usize);
        put_byte(sound, i, sound_of(byte_at(formed, i), one, two));
    }
}
