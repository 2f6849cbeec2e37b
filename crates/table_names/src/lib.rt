// The names of the tables and of their columns.
#![tactic(auto)]

ghost use Rattle.std.specs.Prelude.{◌≡◌, ◌≤◌, length};
ghost use Rattle.lines.specs.Columns.{columns_of};
ghost use Rattle.table_names.specs.Headings.{column_name, table_name};
ghost use Rattle.table_names.specs.Headings.{heading as headingOf};

use lines::columns::{MOST_COLUMNS, column, divide};
use name_bytes::{Name, name_of};
use schemas::Table;
use units::TableNumber;

// Column k of a line of headings, from 1; else the empty name.
fn heading(line: &[u8], k: usize) -> Name
    requires { length (columns_of line.now) ≤ 24 }
    ensures { result ≡ headingOf line.now k }
{
    if k == 0 {
        return name_of(b"");
    }
    if MOST_COLUMNS < k {
        return name_of(b"");
    }
    let ends = divide(line);
    name_of(column(line, &ends, k - 1))
}

// The name of a table's column, from 1; else the empty name.
pub fn column_name(table: Table, k: usize) -> Name
    ensures { result ≡ column_name table k }
{
    match table {
        Table::Pid => heading(
            b"TYPE\tSTYPE\tAPID\tPI1_VAL\tPI2_VAL\tSPID\tDESCR\tUNIT\tTPSD\tDFHSIZE\tTIME\tINTER\tVALID\tCHECK\tEVENT\tEVID",
            k,
        ),
        Table::Pic => heading(b"TYPE\tSTYPE\tPI1_OFF\tPI1_WID\tPI2_OFF\tPI2_WID\tAPID", k),
        Table::Plf => heading(b"NAME\tSPID\tOFFBY\tOFFBI\tNBOCC\tLGOCC\tTIME\tTDOCC", k),
        Table::Pcf => heading(
            b"NAME\tDESCR\tPID\tUNIT\tPTC\tPFC\tWIDTH\tVALID\tRELATED\tCATEG\tNATUR\tCURTX\t\
              INTER\tUSCON\tDECIM\tPARVAL\tSUBSYS\tVALPAR\tSPTYPE\tCORR\tOBTID\tDARC\tENDIAN",
            k,
        ),
        Table::Caf => heading(
            b"NUMBR\tDESCR\tENGFMT\tRAWFMT\tRADIX\tUNIT\tNCURVE\tINTER",
            k,
        ),
        Table::Cap => heading(b"NUMBR\tXVALS\tYVALS", k),
        Table::Txf => heading(b"NUMBR\tDESCR\tRAWFMT\tNALIAS", k),
        Table::Txp => heading(b"NUMBR\tFROM\tTO\tALTXT", k),
        Table::Ocf => heading(b"NAME\tNBCHCK\tNBOOL\tINTER\tCODIN", k),
        Table::Ocp => heading(b"NAME\tPOS\tTYPE\tLVALU\tHVALU\tRLCHK\tVALPAR", k),
        Table::Mcf => heading(b"IDENT\tDESCR\tPOL1\tPOL2\tPOL3\tPOL4\tPOL5", k),
    }
}

// The name of the table with this number; else the empty name.
pub fn table_name(table: TableNumber) -> Name
    ensures { result ≡ table_name table.0 }
{
    heading(
        b"pid\tpic\tplf\tpcf\tcaf\tcap\ttxf\ttxp\tocf\tocp\tmcf",
        table.0,
    )
}
