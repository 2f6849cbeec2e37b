// What is said of a line that can't be read and of an answer that differs.
use answers::answer::Answer;
use lines::columns::part;
use spoken::spelling::value_at;
use std::num::wrapping_add_usize;
use string_fields::string_part;
use units::ByteOffset;
use words::say;
use words::say::words;

fn say_place(rt: &impl Print, name: &[u8], number: usize) {
    words(rt, name);
    words(rt, b", line ");
    say::number(rt, number);
    words(rt, b": ");
}

// A line of a file, from 1.
pub fn say_unread(rt: &impl Print, name: &[u8], number: usize, line: &[u8]) {
    say_place(rt, name, number);
    words(rt, b"can't be read: ");
    words(rt, line);
    words(rt, b"\n");
}

fn say_byte(rt: &impl Print, template: &[u8], i: usize) {
    words(rt, part(template, i, wrapping_add_usize(i, 1)));
}

fn say_template(rt: &impl Print, template: &[u8], values: [u64; 7]) {
    let mut k: usize = 0;
    for i in 0..template.len() {
        if template[i] == b'#' {
            say::number(rt, value_at(values, k) as usize);
            k = wrapping_add_usize(k, 1);
        } else {
            say_byte(rt, template, i);
        }
    }
}

fn say_cell(rt: &impl Print, cell: u16) {
    if cell == 0 {
        words(rt, b" good");
        return;
    }
    words(rt, b" ");
    say::number(rt, (cell / 256) as usize);
    words(rt, b":");
    say::number(rt, (cell % 256) as usize);
}

fn say_position(rt: &impl Print, position: u16) {
    if position == 0 {
        return;
    }
    words(rt, b"@");
    say::number(rt, position as usize);
}

// As far as there are both.
fn say_cells(rt: &impl Print, cells: &[u16], positions: &[u16], n: usize) {
    for i in 0..cells.len() {
        if i < n {
            if i < positions.len() {
                say_cell(rt, cells[i]);
                say_position(rt, positions[i]);
            }
        }
    }
}

fn say_answer(rt: &impl Print, answer: Answer, txp: &[u8], cells: &[u16], positions: &[u16]) {
    if answer.negative {
        words(rt, b"-");
    }
    let template = answer.template;
    let values = answer.values;
    say_template(rt, part(&template, 0, answer.length), values);
    words(rt, string_part(txp, ByteOffset(answer.from), answer.bytes));
    say_cells(rt, cells, positions, answer.cells);
}

// The answer that stands in a line of a file, and the one that was given.
pub(crate) fn say_difference(
    rt: &impl Print,
    name: &[u8],
    number: usize,
    line: &[u8],
    answer: Answer,
    txp: &[u8],
    cells: &[u16],
    positions: &[u16],
) {
    say_place(rt, name, number);
    words(rt, b"expected ");
    words(rt, line);
    words(rt, b"\n    and was answered = ");
    say_answer(rt, answer, txp, cells, positions);
    words(rt, b"\n");
}
