// The header of a packet by CCSDS 133.0, and refusals 20 to 23.
#![tactic(auto)]

ghost use Rattle.std.specs.Prelude.{◌≡◌, ◌+◌, ◌*◌, ◌^◌, ◌≤◌, ◌<◌, length};
ghost use Rattle.fields.specs.Bits.{number_at};
ghost use Rattle.outcomes.specs.Refusals.{said};
ghost use Rattle.headers.specs.Header.{head_of};

use fields::field::read_unsigned;
use outcomes::Refusal;
use units::BitOffset;

// What the header of a packet tells: whether a data field header is flagged, the APID and the sequence count.
#[derive(Clone, Copy)]
pub struct Head {
    pub flagged: bool,
    pub apid: u16,
    pub count: u16,
}

// The `width` bits from the bit `at` of a packet that has them.
fn bits(p: &[u8], at: BitOffset, width: u32) -> u64
    requires { (1 ≤ width) × (width ≤ 64) × (at.0 + width ≤ length p.now * 8) }
    ensures { (result ≡ number_at p.now at.0 width) × (result < 2 ^ width) }
{
    match read_unsigned(p, at, width) {
        Ok(v) => v,
        Err(_) => 0,
    }
}

// The header, or the first of the refusals 20 to 23.
pub fn read_header(p: &[u8]) -> Result<Head, Refusal>
    ensures { said result ≡ head_of p.now }
{
    if p.len() < 7 {
        return Err(Refusal::PacketLength);
    }
    if 8192 < p.len() {
        return Err(Refusal::PacketLength);
    }
    if bits(p, BitOffset(0), 4) != 0 {
        return Err(Refusal::Version);
    }
    if bits(p, BitOffset(32), 16) + 7 != p.len() as u64 {
        return Err(Refusal::LengthField);
    }
    let flagged = bits(p, BitOffset(4), 1) == 1;
    if flagged {
        if p.len() < 9 {
            return Err(Refusal::DataField);
        }
    }
    let apid = bits(p, BitOffset(5), 11) as u16;
    let count = bits(p, BitOffset(18), 14) as u16;
    Ok(Head {
        flagged,
        apid,
        count,
    })
}
