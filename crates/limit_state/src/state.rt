// The state of a parameter's limit checks between two packets.
ghost use Rattle.std.specs.Prelude.{◌≡◌};
ghost use Rattle.limit_state.specs.State.{is_over, has_number, is_a_state, ahead, is_newer};

// Announced is 0 within, 1 soft, 2 hard. A fresh state has seen no packet.
#[derive(Clone, Copy)]
pub struct LimitState {
    pub fresh: bool,
    pub apid: u16,
    pub count: u16,
    pub run: u8,
    pub announced: u8,
}

// Whether a number is over the most it may be.
fn is_over(state: LimitState) -> bool
    ensures { result ≡ is_over state }
{
    if 99 < state.run {
        return true;
    }
    if 2 < state.announced {
        return true;
    }
    if 2047 < state.apid {
        return true;
    }
    16383 < state.count
}

// Whether any number isn't 0.
fn has_number(state: LimitState) -> bool
    ensures { result ≡ has_number state }
{
    if state.apid != 0 {
        return true;
    }
    if state.count != 0 {
        return true;
    }
    if state.run != 0 {
        return true;
    }
    state.announced != 0
}

// Whether a limit step takes the state: refusal 34 is for the others.
pub fn is_state(state: LimitState) -> bool
    ensures { result ≡ is_a_state state }
{
    if is_over(state) {
        return false;
    }
    if state.fresh {
        return !has_number(state);
    }
    true
}

// Whether a packet of this count is ahead of the last by 1 to 8,191, modulo 16,384.
pub fn is_newer(count: u16, last: u16) -> bool
    ensures { result ≡ is_newer count last }
{
    let ahead = (count as u32 + (16384 - last as u32 % 16384)) % 16384;
    if ahead < 1 {
        return false;
    }
    ahead <= 8191
}
