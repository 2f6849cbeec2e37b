// A limit step of a state that comes as five numbers.
#![tactic(auto)]

ghost use Rattle.std.specs.Prelude.{◌≡◌, map};
ghost use Rattle.outcomes.specs.Refusals.{refused_by};
ghost use Rattle.offered.specs.Offered.{offered_state};
ghost use Rattle.accepting.specs.Answer.{said_step};
ghost use Rattle.offered_step.specs.OfferedStep.{no_state, limit_step_from};

use accepting::step::Stepped;
use calls::limit_step::limit_step;
use limit_state::state::LimitState;
use offered::state_of;
use outcomes::Refusal;
use tables::{TABLES, check_sizes};

// Of numbers that are no state.
#[tactic(auto, using(crate::proofs::OfferedLaws::long_no_state, crate::proofs::OfferedLaws::many_no_state))]
fn refuse_state(tables: [&[u8]; TABLES]) -> Refusal
    ensures { refused_by result ≡ no_state (map (λ x. x.now) tables.entry) }
{
    match check_sizes(tables) {
        Ok(()) => Refusal::NoState,
        Err(error) => Refusal::from(error),
    }
}

// Where the numbers are no state, the state beside the refusal says nothing.
pub fn limit_step_from(
    tables: [&[u8]; TABLES],
    p: &[u8],
    name: &[u8],
    numbers: &[i64; 5],
) -> Stepped
    ensures { said_step result.answer result.state
        ≡ limit_step_from (map (λ x. x.now) tables.entry) p.now name.now (offered_state numbers.now) }
{
    match state_of(numbers) {
        Some(state) => limit_step(tables, p, name, state),
        None => Stepped {
            answer: Err(refuse_state(tables)),
            state: LimitState {
                fresh: true,
                apid: 0,
                count: 0,
                run: 0,
                announced: 0,
            },
        },
    }
}
