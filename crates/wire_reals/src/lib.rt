// What a field of PTC 5 says.
#![tactic(auto)]

ghost use Rattle.std.specs.Prelude.{◌≡◌};
ghost use Rattle.wire_reals.specs.Reals.{real_bits, bits_told};

use mil_reals::{real32, real48};

// IEEE 754 bits as they are; a real of MIL-STD-1750A as the double that it is.
pub fn real_bits(pfc: u32, field: u64) -> u64
    ensures { result ≡ real_bits pfc field }
{
    match pfc {
        3 => real32(field),
        4 => real48(field),
        _ => field,
    }
}

// How many bits are told.
pub fn bits_told(pfc: u32) -> u32
    ensures { result ≡ bits_told pfc }
{
    if pfc == 1 {
        return 32;
    }
    64
}
