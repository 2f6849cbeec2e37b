// The width of a field by its type code and format code.
#![tactic(auto)]

ghost use Rattle.std.specs.Prelude.{◌≡◌, ◌*◌};
ghost use Rattle.widths.specs.Width.{bits_of, width_of, bits_within, integer_width, real_width};

#[tactic(auto, unfolding(crate::specs::Width::bits_of, crate::specs::Width::bits_within))]
fn bits_within(n: u32, lowest: u32, highest: u32, bits: u32) -> Option<u32>
    ensures { bits_of result ≡ bits_within n lowest highest bits }
{
    if lowest <= n {
        if n <= highest {
            return Some(bits);
        }
    }
    None
}

#[tactic(auto, unfolding(crate::specs::Width::bits_of, crate::specs::Width::integer_width, crate::specs::Width::bits_within))]
fn integer_width(pfc: u32) -> Option<u32>
    ensures { bits_of result ≡ integer_width pfc }
{
    if pfc == 13 {
        return Some(24);
    }
    if pfc == 14 {
        return Some(32);
    }
    if pfc < 13 {
        return bits_within(pfc, 0, 12, pfc + 4);
    }
    None
}

#[tactic(auto, unfolding(crate::specs::Width::bits_of, crate::specs::Width::real_width))]
fn real_width(pfc: u32) -> Option<u32>
    ensures { bits_of result ≡ real_width pfc }
{
    match pfc {
        1 => Some(32),
        2 => Some(64),
        3 => Some(32),
        4 => Some(48),
        _ => None,
    }
}

#[tactic(auto, unfolding(crate::specs::Width::bits_of, crate::specs::Width::bits_within))]
fn string_width(pfc: u32) -> Option<u32>
    ensures { bits_of result ≡ bits_within pfc 1 255 (8 * pfc) }
{
    if pfc <= 255 {
        return bits_within(pfc, 1, 255, 8 * pfc);
    }
    None
}

// The width in bits; None where there is no such pair of codes.
#[tactic(auto, unfolding(crate::specs::Width::bits_of, crate::specs::Width::width_of))]
pub fn width_of(ptc: u32, pfc: u32) -> Option<u32>
    ensures { bits_of result ≡ width_of ptc pfc }
{
    match ptc {
        1 => bits_within(pfc, 0, 0, 1),
        2 => bits_within(pfc, 1, 32, pfc),
        3 => integer_width(pfc),
        4 => integer_width(pfc),
        5 => real_width(pfc),
        6 => bits_within(pfc, 1, 32, pfc),
        7 => string_width(pfc),
        8 => string_width(pfc),
        _ => None,
    }
}
