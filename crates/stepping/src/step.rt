// A limit step: the state after a packet.
ghost use Rattle.std.specs.Prelude.{◌≡◌, map};
ghost use Rattle.database.specs.Arrays.{database, row_at, answers};
ghost use Rattle.parameters.specs.Located.{by_lines};
ghost use Rattle.stepping.specs.Step.{step_at, step_of, step_headed, step_in};
ghost use Rattle.accepting.specs.Answer.{Answers};

use accepting::step::{Stepped, accept, in_time, refuse};
use announced::Progress;
use checking::parameter::{Subject, check_parameter};
use database::holder_of;
use found_rows::ocf_at;
use headers::{Head, read_header};
use identification::identify_headed;
use key_symbols::limits_key;
use limit_state::state::{LimitState, is_state};
use name_bytes::{Name, name_of};
use outcomes::Refusal;
use parameters::locate;
use tables::TABLES;
use units::Spid;

// The parameter and its limits are found.
fn step_at(
    tables: [&[u8]; TABLES],
    words: &[u64],
    links: &[u16],
    columns: &[u16],
    p: &[u8],
    head: Head,
    subject: Subject,
    state: LimitState,
) -> Stepped
    ensures { Answers state
        (step_at (answers (database (map (λ x. x.now) tables.entry) words.now links.now columns.now))
        p.now subject.name state head subject.spid.0 subject.limits
        (by_lines (row_at (map (λ x. x.now) tables.entry) columns.now subject.at.plf).bytes
        (row_at (map (λ x. x.now) tables.entry) columns.now subject.at.pcf).bytes)) result }
{
    match in_time(state, head) {
        Ok(()) => {
            let progress = Progress {
                run: state.run,
                announced: state.announced,
            };
            let checked = check_parameter(tables, words, links, columns, p, subject, progress);
            accept(head, checked, state)
        }
        Err(refusal) => refuse(state, refusal),
    }
}

// A packet of this SPID.
fn step_of(
    tables: [&[u8]; TABLES],
    words: &[u64],
    links: &[u16],
    columns: &[u16],
    p: &[u8],
    head: Head,
    spid: Spid,
    name: Name,
    state: LimitState,
) -> Stepped
    ensures { Answers state (step_of (answers (database (map (λ x. x.now) tables.entry) words.now links.now columns.now))
        p.now name state head spid.0) result }
{
    let place = holder_of(words, links, columns, limits_key(name));
    if place == 0 {
        return refuse(state, Refusal::NoLimits);
    }
    let Some(at) = locate(words, links, columns, spid, name) else {
        return refuse(state, Refusal::NoPlfRow);
    };
    let subject = Subject {
        spid,
        name,
        limits: ocf_at(tables, columns, place - 1),
        at,
    };
    step_at(tables, words, links, columns, p, head, subject, state)
}

// A packet whose header passes.
fn step_headed(
    tables: [&[u8]; TABLES],
    words: &[u64],
    links: &[u16],
    columns: &[u16],
    p: &[u8],
    head: Head,
    name: Name,
    state: LimitState,
) -> Stepped
    ensures { Answers state (step_headed (answers (database (map (λ x. x.now) tables.entry) words.now links.now columns.now))
        p.now name state head) result }
{
    match identify_headed(tables, words, links, columns, p, head) {
        Ok(identity) => step_of(
            tables,
            words,
            links,
            columns,
            p,
            head,
            identity.spid,
            name,
            state,
        ),
        Err(refusal) => refuse(state, refusal),
    }
}

// The state of the named parameter after a packet.
pub fn step_in(
    tables: [&[u8]; TABLES],
    words: &[u64],
    links: &[u16],
    columns: &[u16],
    p: &[u8],
    name: &[u8],
    state: LimitState,
) -> Stepped
    ensures { Answers state (step_in (answers (database (map (λ x. x.now) tables.entry) words.now links.now columns.now))
        p.now name.now state) result }
{
    if !is_state(state) {
        return refuse(state, Refusal::NoState);
    }
    match read_header(p) {
        Ok(head) => step_headed(tables, words, links, columns, p, head, name_of(name), state),
        Err(refusal) => refuse(state, refusal),
    }
}
