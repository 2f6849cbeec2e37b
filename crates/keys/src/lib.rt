// Keys: what a row holds, names and is counted in, as symbols.
#![tactic(auto)]

mod tables;

ghost use Rattle.std.specs.Prelude.{◌≡◌};
ghost use Rattle.lines.specs.Lines.{next_line, line_from};
ghost use Rattle.keys.specs.Held.{ColumnsRead, row_keys_of};

use row_keys::parts::blanked;
use row_keys::records::LineKeys;
use schemas::Table;
use tables::{
    caf_keys, cap_keys, mcf_keys, ocf_keys, ocp_keys, pcf_keys, pic_keys, pid_keys, plf_keys,
    txf_keys, txp_keys,
};

fn column_keys(kind: Table, table: &[u8], at: usize) -> LineKeys
    ensures { ColumnsRead kind table.now at result }
{
    match kind {
        Table::Pid => pid_keys(table, at),
        Table::Pic => pic_keys(table, at),
        Table::Plf => plf_keys(table, at),
        Table::Pcf => pcf_keys(table, at),
        Table::Caf => caf_keys(table, at),
        Table::Cap => cap_keys(table, at),
        Table::Txf => txf_keys(table, at),
        Table::Txp => txp_keys(table, at),
        Table::Ocf => ocf_keys(table, at),
        Table::Ocp => ocp_keys(table, at),
        Table::Mcf => mcf_keys(table, at),
    }
}

// The keys of the line that starts at a place of a table; a row with one of reasons 1 to 8 has none and names nothing.
pub fn line_keys(kind: Table, table: &[u8], at: usize) -> LineKeys
    ensures keys_value { result.keys ≡ row_keys_of kind (line_from table.now at) }
    ensures next_value { result.next ≡ (next_line table.now at).next }
{
    blanked(column_keys(kind, table, at))
}
