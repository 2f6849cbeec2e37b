// The engineering value of a parameter in a packet.
ghost use Rattle.std.specs.Prelude.{◌≡◌, map};
ghost use Rattle.engineering.specs.Engineering.{said_engineered};
ghost use Rattle.calls.specs.Calls.{engineer_of};

use crate::ask::ask;
use answering::{Answered, Call};
use engineering::engineer::Engineered;
use outcomes::Refusal;
use tables::TABLES;

// An answer of another kind never comes.
pub fn engineer(
    tables: [&[u8]; TABLES],
    p: &[u8],
    name: &[u8],
    occurrence: usize,
) -> Result<Engineered, Refusal>
    ensures { said_engineered result ≡ engineer_of (map (λ x. x.now) tables.entry) p.now name.now occurrence }
{
    match ask(tables, p, name, Call::Engineer(occurrence)) {
        Answered::Engineered(engineered) => engineered,
        _ => Err(Refusal::NoPidRow),
    }
}
