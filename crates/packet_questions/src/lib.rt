// The questions that lend no cells, asked of the tables and the packet.
#![tactic(auto)]

ghost use Rattle.std.specs.Prelude.{◌≡◌, map};
ghost use Rattle.packet_questions.specs.PacketReplies.{identify_reply, occurrence_in, extract_reply, engineer_reply, reply_to};

use answers::answer::{Answer, unread};
use calls::engineer::engineer;
use calls::extract::extract;
use calls::identify::identify;
use inside::inner::{ask_line, ask_number, ask_signed, ask_string, ask_unsigned, ask_width};
use replies::packet_replies::{say_engineered, say_identified, say_reading};
use scripts::operands::{column_at, column_count, natural_in};
use tables::TABLES;

fn ask_identify(tables: [&[u8]; TABLES], packet: &[u8], text: &[u8]) -> Answer
    ensures { result ≡ identify_reply (map (λ x. x.now) tables.entry) packet.now text.now }
{
    if text.len() == 0 {
        return say_identified(identify(tables, packet));
    }
    unread()
}

// The occurrence that a question names after a name, 0 where it names none.
fn occurrence_of(text: &[u8]) -> Option<u64>
    ensures { result ≡ occurrence_in text.now }
{
    let count = column_count(text);
    if count == 1 {
        return Some(0);
    }
    if count == 2 {
        return natural_in(column_at(text, 1));
    }
    None
}

fn ask_extract(tables: [&[u8]; TABLES], packet: &[u8], text: &[u8]) -> Answer
    ensures { result ≡ extract_reply (map (λ x. x.now) tables.entry) packet.now text.now }
{
    match occurrence_of(text) {
        Some(k) => say_reading(extract(tables, packet, column_at(text, 0), k as usize)),
        None => unread(),
    }
}

fn ask_engineer(tables: [&[u8]; TABLES], packet: &[u8], text: &[u8]) -> Answer
    ensures { result ≡ engineer_reply (map (λ x. x.now) tables.entry) packet.now text.now }
{
    match occurrence_of(text) {
        Some(k) => say_engineered(engineer(tables, packet, column_at(text, 0), k as usize)),
        None => unread(),
    }
}

// The questions that lend no cells, by their number in the list of questions.
pub fn answer_to(k: usize, tables: [&[u8]; TABLES], packet: &[u8], text: &[u8]) -> Answer
    ensures { result ≡ reply_to k (map (λ x. x.now) tables.entry) packet.now text.now }
{
    match k {
        2 => ask_identify(tables, packet, text),
        3 => ask_extract(tables, packet, text),
        4 => ask_engineer(tables, packet, text),
        6 => ask_number(text),
        7 => ask_width(text),
        8 => ask_unsigned(packet, text),
        9 => ask_signed(packet, text),
        10 => ask_string(packet, text),
        _ => ask_line(text),
    }
}
