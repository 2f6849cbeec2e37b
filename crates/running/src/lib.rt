// A vector file line by line.
#![tactic(auto)]

ghost use Rattle.std.specs.Prelude.{◌≡◌, ℕ, true, List, if◌then◌else◌};
ghost use Rattle.std.proofs.Math.Option.{some, none};
ghost use Rattle.lines.specs.Columns.{part_of};
ghost use Rattle.scripts.specs.Words.{after_word};
ghost use Rattle.lines.specs.Lines.{lines_of};
ghost use Rattle.running.specs.Script.{standing, under_question, set_by, taken, first_standing, after_lines, closing, tally_of, stood, standing_in};
ghost use Rattle.running.specs.Script.{next_standing};

use areas::{AREAS, PACKET, SPACE, area_in, clear_all, tables_in};
use comparing::compare::Verdict;
use comparing::difference::say_unread;
use limit_state::state::LimitState;
use lines::columns::part;
use lines::walk::next_line;
use questions::judge;
use scripts::verb::{QUESTIONS, question_of, setting_of, text_of, word_of};
use settings::{SETTINGS, set_line};
use std::num::wrapping_sub_usize;
use tallies::{Tally, count};

// The limit state; the question that waits for its answer, as its place in the text; and the tally.
#[derive(Clone, Copy)]
pub(crate) struct Standing {
    pub state: LimitState,
    pub waits: bool,
    pub from: usize,
    pub to: usize,
    pub tally: Tally,
}

// No question waits.
fn stands(state: LimitState, tally: Tally) -> Standing
    ensures { result ≡ stood state tally }
{
    Standing {
        state,
        waits: false,
        from: 0,
        to: 0,
        tally,
    }
}

// A question that can't be read stands in the line before its answer.
fn say_question(rt: &impl Print, name: &[u8], number: usize, question: &[u8], verdict: Verdict) {
    match verdict {
        Verdict::Unread => say_unread(rt, name, wrapping_sub_usize(number, 1), question),
        Verdict::Same => {}
        Verdict::Differs => {}
    }
}

// The line under a question.
fn take_answer(
    rt: &impl Print,
    name: &[u8],
    number: usize,
    question: &[u8],
    line: &[u8],
    space: &[u8],
    ends: &[usize],
    state: LimitState,
    tally: Tally,
) -> Standing
    ensures tally_value { standing space.now ends.now result.state none result.tally
        ≡ under_question (standing space.now ends.now state none tally) question.now line.now }
    ensures value { result ≡ stood result.state result.tally }
{
    let k = question_of(word_of(question));
    let packet = area_in(space, ends, PACKET);
    let judged = judge(
        rt,
        name,
        number,
        k,
        tables_in(space, ends),
        packet,
        text_of(question),
        state,
        line,
    );
    let verdict = judged.verdict;
    say_question(rt, name, number, question, verdict);
    stands(judged.state, count(tally, k, verdict))
}

// A line that sets something.
fn take_setting(
    rt: &impl Print,
    name: &[u8],
    number: usize,
    k: usize,
    line: &[u8],
    space: &mut [u8],
    ends: &mut [usize],
    state: LimitState,
    tally: Tally,
) -> Standing
    ensures tally_after { standing space.new ends.new result.state none result.tally
        ≡ set_by (standing space.old ends.old state none tally) k (after_word line.now) }
    ensures value { result ≡ stood result.state result.tally }
{
    let l = set_line(k, text_of(line), space, ends, state);
    if l.readable {
        return stands(l.state, tally);
    }
    say_unread(rt, name, number, line);
    stands(l.state, count(tally, 0, Verdict::Unread))
}

// A line that isn't an answer; from and to are its place in the text.
fn take_line(
    rt: &impl Print,
    name: &[u8],
    number: usize,
    line: &[u8],
    from: usize,
    to: usize,
    space: &mut [u8],
    ends: &mut [usize],
    state: LimitState,
    tally: Tally,
) -> Standing
    ensures tally_after { standing space.new ends.new result.state (if result.waits then some line.now else none) result.tally
        ≡ taken (standing space.old ends.old state none tally) line.now }
    ensures from_value { result.waits ≡ true → (result.from ≡ from) × (result.to ≡ to) }
{
    if line.len() == 0 {
        return stands(state, tally);
    }
    if line[0] == b'#' {
        return stands(state, tally);
    }
    let word = word_of(line);
    if question_of(word) < QUESTIONS {
        return Standing {
            state,
            waits: true,
            from,
            to,
            tally,
        };
    }
    let k = setting_of(word);
    if k < SETTINGS {
        return take_setting(rt, name, number, k, line, space, ends, state, tally);
    }
    say_unread(rt, name, number, line);
    stands(state, count(tally, 0, Verdict::Unread))
}

// The line with this number, from 1, after a question or not.
fn take_next(
    rt: &impl Print,
    name: &[u8],
    number: usize,
    text: &[u8],
    from: usize,
    to: usize,
    space: &mut [u8],
    ends: &mut [usize],
    s: Standing,
) -> Standing
    ensures { standing_in text.now space.new ends.new result
        ≡ next_standing (standing_in text.now space.old ends.old s) (part_of text.now from to) }
{
    let line = part(text, from, to);
    let state = s.state;
    let tally = s.tally;
    if s.waits {
        let question = part(text, s.from, s.to);
        return take_answer(rt, name, number, question, line, space, ends, state, tally);
    }
    take_line(rt, name, number, line, from, to, space, ends, state, tally)
}

// A question that no line follows can't be read.
fn close(rt: &impl Print, name: &[u8], number: usize, text: &[u8], s: Standing) -> Tally
    ensures { (space ends : List ℕ) → result ≡ closing (standing_in text.now space ends s) }
{
    if s.waits {
        say_unread(rt, name, number, part(text, s.from, s.to));
        return count(s.tally, 0, Verdict::Unread);
    }
    s.tally
}

fn run_lines(
    rt: &impl Print,
    name: &[u8],
    text: &[u8],
    space: &mut [u8],
    ends: &mut [usize],
) -> Tally
    ensures { result ≡ closing (after_lines (first_standing space.old ends.old) (lines_of text.now)) }
{
    let mut s = stands(
        LimitState {
            fresh: true,
            apid: 0,
            count: 0,
            run: 0,
            announced: 0,
        },
        Tally {
            asked: [0; QUESTIONS],
            differ: 0,
            unread: 0,
        },
    );
    let mut from: usize = 0;
    let mut number: usize = 0;
    while from < text.len() {
        let line = next_line(text, from);
        number += 1;
        s = take_next(rt, name, number, text, from, line.end, space, ends, s);
        from = line.next;
    }
    close(rt, name, number, text, s)
}

// The tally of a vector file's text. The space is for its tables and packet, which are empty at first.
pub fn run(rt: &impl Print, name: &[u8], text: &[u8], space: &mut [u8; SPACE]) -> Tally
    ensures { result ≡ tally_of space.old text.now }
{
    let mut ends = [0usize; AREAS];
    clear_all(&mut ends);
    run_lines(rt, name, text, space, &mut ends)
}
