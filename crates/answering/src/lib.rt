// Any call with a packet, answered by tables that are loaded.
#![tactic(auto)]

ghost use Rattle.std.specs.Prelude.{map};
ghost use Rattle.outcomes.specs.Refusals.{refused_by};
ghost use Rattle.database.specs.Arrays.{database, answers};
ghost use Rattle.answering.specs.Answering.{Answering};

use accepting::step::Stepped;
use engineering::engineer::Engineered;
use extraction::engineer::engineer_in;
use extraction::extract::extract_in;
use identification::{Identity, identify_in};
use limit_state::state::LimitState;
use outcomes::Refusal;
use readings::Reading;
use stepping::step::step_in;
use tables::TABLES;

// An occurrence or a state goes with the call that takes it.
#[derive(Clone, Copy)]
pub enum Call {
    Identify,
    Extract(usize),
    Engineer(usize),
    LimitStep(LimitState),
}

#[derive(Clone, Copy)]
pub enum Answered {
    Identified(Result<Identity, Refusal>),
    Read(Result<Reading, Refusal>),
    Engineered(Result<Engineered, Refusal>),
    Stepped(Stepped),
}

// A refusal as the answer to any call.
pub fn refuse(call: Call, p: &[u8], name: &[u8], refusal: Refusal) -> Answered
    ensures { Answering (λ _ _. refused_by refusal) p.now name.now call result }
{
    match call {
        Call::Identify => Answered::Identified(Err(refusal)),
        Call::Extract(_) => Answered::Read(Err(refusal)),
        Call::Engineer(_) => Answered::Engineered(Err(refusal)),
        Call::LimitStep(state) => Answered::Stepped(Stepped {
            answer: Err(refusal),
            state,
        }),
    }
}

pub fn answer_in(
    tables: [&[u8]; TABLES],
    words: &[u64],
    links: &[u16],
    columns: &[u16],
    p: &[u8],
    name: &[u8],
    call: Call,
) -> Answered
    ensures { Answering (λ _ ask. ask (answers (database (map (λ x. x.now) tables.entry) words.now links.now columns.now)))
        p.now name.now call result }
{
    match call {
        Call::Identify => Answered::Identified(identify_in(tables, words, links, columns, p)),
        Call::Extract(k) => Answered::Read(extract_in(tables, words, links, columns, p, name, k)),
        Call::Engineer(k) => {
            Answered::Engineered(engineer_in(tables, words, links, columns, p, name, k))
        }
        Call::LimitStep(state) => {
            Answered::Stepped(step_in(tables, words, links, columns, p, name, state))
        }
    }
}
