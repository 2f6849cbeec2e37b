// A question asked of the tables and the packet, and whether the line under it is the answer.
#![tactic(auto)]

ghost use Rattle.std.specs.Prelude.{◌≡◌, map};
ghost use Rattle.escapes.specs.Escapes.{read_in};
ghost use Rattle.questions.specs.Questions.{step_judged, answer_to, question_verdict, judged_text, question_bytes, judged};

use answers::answer::Answer;
use calls::limit_step::limit_step;
use cell_questions::{judge_import, judge_row};
use comparing::compare::{Verdict, compare};
use escapes::{ROOM, unescape, unescape_row};
use index_questions::answer_by_index;
use limit_state::state::LimitState;
use lines::columns::part;
use packet_questions::answer_to;
use replies::packet_replies::say_stepped;
use tables::{TABLES, table_at};

// Whether the line under a question is its answer, and the limit state after it.
#[derive(Clone, Copy)]
pub struct Judged {
    pub verdict: Verdict,
    pub state: LimitState,
}

// A refusal leaves the state as it was.
fn judge_step(
    rt: &impl Print,
    name: &[u8],
    number: usize,
    tables: [&[u8]; TABLES],
    packet: &[u8],
    text: &[u8],
    state: LimitState,
    line: &[u8],
) -> Judged
    ensures { result ≡ step_judged (map (λ x. x.now) tables.entry) packet.now text.now state line.now }
{
    let stepped = limit_step(tables, packet, text, state);
    let after = stepped.state;
    let cells = [0u16; 0];
    let positions = [0u16; 0];
    let verdict = compare(
        rt,
        name,
        number,
        line,
        say_stepped(stepped),
        table_at(tables, 7),
        &cells,
        &positions,
    );
    Judged {
        verdict,
        state: after,
    }
}

// The questions that lend no cells; those of an index come after the others.
fn answer_of(k: usize, tables: [&[u8]; TABLES], packet: &[u8], text: &[u8]) -> Answer
    ensures { result ≡ answer_to k (map (λ x. x.now) tables.entry) packet.now text.now }
{
    if k < 12 {
        return answer_to(k, tables, packet, text);
    }
    answer_by_index(k, tables, packet, text)
}

fn judge_question(
    rt: &impl Print,
    name: &[u8],
    number: usize,
    k: usize,
    tables: [&[u8]; TABLES],
    packet: &[u8],
    text: &[u8],
    line: &[u8],
) -> Verdict
    ensures { result ≡ question_verdict k (map (λ x. x.now) tables.entry) packet.now text.now line.now }
{
    if k == 0 {
        return judge_import(rt, name, number, tables, text, line);
    }
    if k == 1 {
        return judge_row(rt, name, number, text, line);
    }
    let cells = [0u16; 0];
    let positions = [0u16; 0];
    let answer = answer_of(k, tables, packet, text);
    compare(
        rt,
        name,
        number,
        line,
        answer,
        table_at(tables, 7),
        &cells,
        &positions,
    )
}

fn judge_text(
    rt: &impl Print,
    name: &[u8],
    number: usize,
    k: usize,
    tables: [&[u8]; TABLES],
    packet: &[u8],
    text: &[u8],
    state: LimitState,
    line: &[u8],
) -> Judged
    ensures { result ≡ judged_text k (map (λ x. x.now) tables.entry) packet.now state line.now text.now }
{
    if k == 5 {
        return judge_step(rt, name, number, tables, packet, text, state, line);
    }
    Judged {
        verdict: judge_question(rt, name, number, k, tables, packet, text, line),
        state,
    }
}

// The bytes of a question's text. That of `row` ends as a row does.
fn question_text(k: usize, raw: &[u8], out: &mut [u8; ROOM]) -> Option<usize>
    ensures { read_in result out.new ≡ question_bytes k raw.now }
{
    if k == 1 {
        return unescape_row(raw, out);
    }
    unescape(raw, out)
}

// The text is read into a lent array.
fn judge_in(
    rt: &impl Print,
    name: &[u8],
    number: usize,
    k: usize,
    tables: [&[u8]; TABLES],
    packet: &[u8],
    raw: &[u8],
    state: LimitState,
    line: &[u8],
    out: &mut [u8; ROOM],
) -> Judged
    ensures { result ≡ judged k (map (λ x. x.now) tables.entry) packet.now raw.now state line.now }
{
    match question_text(k, raw, out) {
        Some(n) => judge_text(
            rt,
            name,
            number,
            k,
            tables,
            packet,
            part(out, 0, n),
            state,
            line,
        ),
        None => Judged {
            verdict: Verdict::Unread,
            state,
        },
    }
}

pub fn judge(
    rt: &impl Print,
    name: &[u8],
    number: usize,
    k: usize,
    tables: [&[u8]; TABLES],
    packet: &[u8],
    raw: &[u8],
    state: LimitState,
    line: &[u8],
) -> Judged
    ensures { result ≡ judged k (map (λ x. x.now) tables.entry) packet.now raw.now state line.now }
{
    let mut out = [0u8; ROOM];
    judge_in(
        rt, name, number, k, tables, packet, raw, state, line, &mut out,
    )
}
