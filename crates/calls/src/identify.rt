// Which packet it is.
ghost use Rattle.std.specs.Prelude.{◌≡◌, map};
ghost use Rattle.identification.specs.Identification.{said_identified};
ghost use Rattle.calls.specs.Calls.{identify_of};

use crate::ask::ask;
use answering::{Answered, Call};
use identification::Identity;
use outcomes::Refusal;
use tables::TABLES;

// An answer of another kind never comes.
pub fn identify(tables: [&[u8]; TABLES], p: &[u8]) -> Result<Identity, Refusal>
    ensures { said_identified result ≡ identify_of (map (λ x. x.now) tables.entry) p.now }
{
    match ask(tables, p, p, Call::Identify) {
        Answered::Identified(identified) => identified,
        _ => Err(Refusal::NoPidRow),
    }
}
