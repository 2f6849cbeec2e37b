// The rows of a parameter in a packet.
#![tactic(auto)]

ghost use Rattle.std.specs.Prelude.{ℕ, ◌≡◌, List};
ghost use Rattle.database.specs.Arrays.{database, answers};
ghost use Rattle.parameters.specs.Located.{located, at_places};

use database::holder_of;
use key_symbols::{location_key, parameter_key};
use name_bytes::Name;
use units::Spid;

// The places of a parameter's plf row and pcf row.
#[derive(Clone, Copy)]
pub struct Places {
    pub plf: usize,
    pub pcf: usize,
}

// 01: "no good plf row for name and SPID", or no pcf row, is none. The tables themselves aren't read.
pub fn locate(
    words: &[u64],
    links: &[u16],
    columns: &[u16],
    spid: Spid,
    name: Name,
) -> Option<Places>
    ensures { (texts : List (List ℕ)) → at_places texts columns.now result
        ≡ located (answers (database texts words.now links.now columns.now)) spid.0 name }
{
    let plf = holder_of(words, links, columns, location_key(name, spid));
    if plf == 0 {
        return None;
    }
    let pcf = holder_of(words, links, columns, parameter_key(name));
    if pcf == 0 {
        return None;
    }
    Some(Places {
        plf: plf - 1,
        pcf: pcf - 1,
    })
}
