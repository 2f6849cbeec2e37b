// Whether a state takes a packet, and the state that an accepted packet leaves.
ghost use Rattle.std.specs.Prelude.{◌≡◌};
ghost use Rattle.outcomes.specs.Outcome.{and_then, answer};
ghost use Rattle.outcomes.specs.Refusals.{said, refused_by};
ghost use Rattle.accepting.specs.Time.{in_time};
ghost use Rattle.accepting.specs.Accepted.{accepted};
ghost use Rattle.accepting.specs.Answer.{said_step, Answers};

use announced::Progress;
use headers::Head;
use limit_state::state::{LimitState, is_newer};
use outcomes::Refusal;

// Whether the packet was taken, or why not; and the state after it: refused, it is the state that was offered.
#[derive(Clone, Copy)]
pub struct Stepped {
    pub answer: Result<(), Refusal>,
    pub state: LimitState,
}

pub fn refuse(state: LimitState, refusal: Refusal) -> Stepped
    ensures { Answers state (refused_by refusal) result }
{
    Stepped {
        answer: Err(refusal),
        state,
    }
}

// An accepted packet sets APID and count, and its state is no longer fresh.
pub fn accept(head: Head, checked: Result<Progress, Refusal>, state: LimitState) -> Stepped
    ensures { Answers state (and_then (said checked) (λ progress. answer (accepted head progress))) result }
{
    match checked {
        Ok(progress) => Stepped {
            answer: Ok(()),
            state: LimitState {
                fresh: false,
                apid: head.apid,
                count: head.count,
                run: progress.run,
                announced: progress.announced,
            },
        },
        Err(refusal) => refuse(state, refusal),
    }
}

// Whether the state takes a packet of this APID and count: 36 before 35.
pub fn in_time(state: LimitState, head: Head) -> Result<(), Refusal>
    ensures { said_step result state ≡ in_time state head }
{
    if state.fresh {
        return Ok(());
    }
    if head.apid != state.apid {
        return Err(Refusal::OtherApid);
    }
    if is_newer(head.count, state.count) {
        Ok(())
    } else {
        Err(Refusal::NotNewer)
    }
}
