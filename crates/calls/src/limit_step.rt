// A parameter's limit state after a packet.
ghost use Rattle.std.specs.Prelude.{map};
ghost use Rattle.accepting.specs.Answer.{Answers};
ghost use Rattle.calls.specs.Calls.{limit_step_of};

use crate::ask::ask;
use accepting::step::Stepped;
use answering::{Answered, Call};
use limit_state::state::LimitState;
use outcomes::Refusal;
use tables::TABLES;

// An answer of another kind never comes.
pub fn limit_step(tables: [&[u8]; TABLES], p: &[u8], name: &[u8], state: LimitState) -> Stepped
    ensures { Answers state (limit_step_of (map (λ x. x.now) tables.entry) p.now name.now state) result }
{
    match ask(tables, p, name, Call::LimitStep(state)) {
        Answered::Stepped(stepped) => stepped,
        _ => Stepped {
            answer: Err(Refusal::NoPidRow),
            state,
        },
    }
}
