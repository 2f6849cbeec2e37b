// The rows that packets are identified by, by their numbers.
#![tactic(auto)]

ghost use Rattle.std.specs.Prelude.{◌≡◌, map};
ghost use Rattle.database.specs.Arrays.{database, answers};
ghost use Rattle.packet_rows.specs.Packets.{packets_by, said_packet};

use database::{holder_of, number_of};
use found_rows::numbers_at;
use key_symbols::{FiveNumbers, packet_key};
use tables::TABLES;
use units::RowNumber;

// The five numbers of pid row `row`, from 1, if it is good and VALID Y: the database gives it for these numbers.
pub fn packet_at(
    tables: [&[u8]; TABLES],
    words: &[u64],
    links: &[u16],
    columns: &[u16],
    row: usize,
) -> Option<FiveNumbers>
    ensures { said_packet result
        ≡ packets_by (answers (database (map (λ x. x.now) tables.entry) words.now links.now columns.now)) row }
{
    if row == 0 {
        return None;
    }
    let i = row - 1;
    let number = number_of(columns, i);
    if number.0 != row {
        return None;
    }
    let numbers = numbers_at(tables, columns, i);
    let asked = packet_key(numbers);
    if !asked.fits {
        return None;
    }
    if holder_of(words, links, columns, asked.key) != row {
        return None;
    }
    Some(numbers)
}
