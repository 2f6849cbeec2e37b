// The five numbers of a packet whose header is known.
#![tactic(auto)]

ghost use Rattle.std.specs.Prelude.{◌≡◌, cond, List, map, ℕ, get_or};
ghost use Rattle.database.specs.Arrays.{database, row_for, answers};
ghost use Rattle.outcomes.specs.Refusals.{said};
ghost use Rattle.five_numbers.specs.Numbers.{pic_row_of, identifiers_from, numbers_of};

use arrays::byte_at;
use database::holder_of;
use found_rows::pic_at;
use headers::Head;
use identifiers::{Identifiers, read_fields};
use key_symbols::{FiveNumbers, identification_key};
use outcomes::Refusal;
use tables::TABLES;

// Where type and subtype stand.
const TYPE: usize = 7;

const SUBTYPE: usize = 8;

fn wide(b: u8) -> u32
    ensures { result ≡ b }
{
    b as u32
}

// A byte of the data field header; 0 without one.
fn header_byte(p: &[u8], head: Head, i: usize) -> u32
    ensures { result ≡ cond head.flagged (get_or p.now i 0) 0 }
{
    if head.flagged {
        return wide(byte_at(p, i));
    }
    0
}

pub fn numbers_of(p: &[u8], head: Head, pair: Identifiers) -> FiveNumbers
    ensures { result ≡ numbers_of head p.now pair }
{
    FiveNumbers {
        ptype: header_byte(p, head, TYPE),
        stype: header_byte(p, head, SUBTYPE),
        apid: head.apid as u32,
        pi1: pair.pi1,
        pi2: pair.pi2,
    }
}

// One more than the place of the pic row with this APID, else of the one with none; 0 where there is neither,
// or no data field header.
fn find_pic(words: &[u64], links: &[u16], columns: &[u16], p: &[u8], head: Head) -> usize
    ensures { (texts : List (List ℕ)) → row_for texts columns.now result
        ≡ pic_row_of (answers (database texts words.now links.now columns.now)) head p.now }
{
    if !head.flagged {
        return 0;
    }
    let ptype = header_byte(p, head, TYPE);
    let stype = header_byte(p, head, SUBTYPE);
    let only = Some(head.apid as u32);
    let own = holder_of(
        words,
        links,
        columns,
        identification_key(ptype, stype, only),
    );
    if own != 0 {
        return own;
    }
    holder_of(
        words,
        links,
        columns,
        identification_key(ptype, stype, None),
    )
}

// PI1 and PI2 by that row.
pub fn identifiers_of(
    tables: [&[u8]; TABLES],
    words: &[u64],
    links: &[u16],
    columns: &[u16],
    p: &[u8],
    head: Head,
) -> Result<Identifiers, Refusal>
    ensures { said result ≡ identifiers_from p.now
        (pic_row_of (answers (database (map (λ x. x.now) tables.entry) words.now links.now columns.now)) head p.now) }
{
    let at = find_pic(words, links, columns, p, head);
    if at == 0 {
        return Ok(Identifiers { pi1: 0, pi2: 0 });
    }
    let i = at - 1;
    read_fields(p, pic_at(tables, columns, i))
}
