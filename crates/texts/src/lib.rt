// The text of a raw value, and the bytes of a text.
#![tactic(auto)]

ghost use Rattle.std.specs.Prelude.{◌≡◌, map, ◌≤◌, length};
ghost use Rattle.std.proofs.Math.Option.{some};
ghost use Rattle.std.proofs.lemmas.List.Edits.{sets};
ghost use Rattle.string_fields.specs.Text.{part_at};
ghost use Rattle.database.specs.Arrays.{database, row_at, answers};
ghost use Rattle.texts.specs.Texts.{from_of, text_in, text_for, said_text};

use calibration::nearest::not_above;
use curves::ints::less;
use database::{MOST_MEMBERS, list_members, number_of, start_of};
use found_rows::txp_at;
use key_symbols::texts_key;
use name_bytes::CurveName;
use outcomes::Refusal;
use string_fields::string_part;
use tables::TABLES;
use units::{ByteOffset, RowNumber, TableOffset};

// A text as its txp row, and ALTXT's place in that table and its length.
// `text_part` hands back the bytes of such a text.
#[derive(Clone, Copy)]
pub struct Text {
    pub row: RowNumber,
    pub start: TableOffset,
    pub bytes: usize,
}

// ALTXT of the row at a place, where TO isn't below the raw value.
fn text_of(
    tables: [&[u8]; TABLES],
    columns: &[u16],
    place: usize,
    raw: i64,
) -> Result<Text, Refusal>
    ensures { said_text result ≡ text_in (some (row_at (map (λ x. x.now) tables.entry) columns.now place)) raw }
{
    let row = txp_at(tables, columns, place);
    let to = row.to;
    if less(to, raw) {
        return Err(Refusal::NoText);
    }
    let start = TableOffset(start_of(columns, place) + row.start);
    Ok(Text {
        row: number_of(columns, place),
        start,
        bytes: row.end - row.start,
    })
}

// FROM of the rows at these places.
fn fill_froms(
    tables: [&[u8]; TABLES],
    columns: &[u16],
    places: &[usize],
    froms: &mut [i64; MOST_MEMBERS],
)
    requires { length places.now ≤ 1024 }
    ensures { froms.new ≡ sets froms.old 0
        (map (λ i. from_of (row_at (map (λ x. x.now) tables.entry) columns.now i)) places.now) }
{
    for i in 0..places.len() {
        let place = places[i];
        let row = txp_at(tables, columns, place);
        let from = row.from;
        froms[i] = from;
    }
}

// By the rows of this name in txp.
pub fn text_value(
    tables: [&[u8]; TABLES],
    words: &[u64],
    links: &[u16],
    columns: &[u16],
    name: CurveName,
    raw: i64,
) -> Result<Text, Refusal>
    ensures { said_text result
        ≡ text_for (answers (database (map (λ x. x.now) tables.entry) words.now links.now columns.now)) name raw }
{
    let mut places = [0usize; MOST_MEMBERS];
    let count = list_members(words, links, columns, texts_key(name), &mut places);
    let mut froms = [0i64; MOST_MEMBERS];
    fill_froms(tables, columns, &places[..count], &mut froms);
    match not_above(&froms[..count], raw) {
        Some(i) => {
            let place = places[i];
            text_of(tables, columns, place, raw)
        }
        None => Err(Refusal::NoText),
    }
}

// The bytes of a text: the part of txp at the place that was answered.
pub fn text_part(txp: &[u8], from: TableOffset, bytes: usize) -> &[u8]
    ensures { result.now ≡ part_at txp.now from.0 bytes }
{
    string_part(txp, ByteOffset(from.0), bytes)
}
