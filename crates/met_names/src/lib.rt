// Whether what a row names is there, good and of the kind asked.
#![tactic(auto)]

ghost use Rattle.std.specs.Prelude.{◌≡◌};
ghost use Rattle.met_names.specs.Names.{asked_at, met_at};

use arrays::byte_at;
use chain_steps::NO_ROW;
use manners::{meets, naming_kind};

// Whether what a naming found is there, and of the kind asked.
pub fn is_asked(kinds: &[u8], code: u8, found: u16) -> bool
    ensures { result ≡ asked_at kinds.now code found }
{
    if found == NO_ROW {
        return false;
    }
    meets(byte_at(kinds, found as usize), naming_kind(code))
}

// Whether a naming is met: there is none, or what it found is of the kind asked and marked good.
pub fn is_met(kinds: &[u8], good: &[u8], code: u8, found: u16) -> bool
    ensures { result ≡ met_at kinds.now good.now code found }
{
    if code == 0 {
        return true;
    }
    if is_asked(kinds, code, found) {
        return byte_at(good, found as usize) == 1;
    }
    false
}
