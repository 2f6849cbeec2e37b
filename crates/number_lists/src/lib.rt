// The list of row numbers that a question names.
#![tactic(auto)]

ghost use Rattle.std.specs.Prelude.{◌≡◌, length};
ghost use Rattle.lines.specs.Columns.{columns_of};
ghost use Rattle.escapes.specs.Escapes.{read_in, NoMoreThan};
ghost use Rattle.number_lists.specs.Lists.{row_numbers_in, where_entries, list_in};

use scripts::operands::{column_count, natural_at};

// One number for each column, as far as there is room.
fn read_numbers(text: &[u8], out: &mut [u16]) -> Option<usize>
    ensures out_after { read_in result out.new
        ≡ where_entries (length out.old) (columns_of text.now) (row_numbers_in (columns_of text.now)) }
    ensures no_more_than { NoMoreThan result (length out.old) }
{
    let count = column_count(text);
    if out.len() < count {
        return None;
    }
    for k in 0..count {
        let row = natural_at(65535, text, k)?;
        out[k] = row as u16;
    }
    Some(count)
}

// No text is the empty list.
pub fn read_list(text: &[u8], out: &mut [u16]) -> Option<usize>
    ensures out_after { read_in result out.new ≡ list_in (length out.old) text.now }
    ensures no_more_than { NoMoreThan result (length out.old) }
{
    if text.len() == 0 {
        return Some(0);
    }
    read_numbers(text, out)
}
