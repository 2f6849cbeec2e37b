// The columns of the tables, by their numbers from 0.
ghost use Rattle.std.specs.Prelude.{◌≡◌, get_or};
ghost use Rattle.column_checks.specs.Schema.{text};
ghost use Rattle.schemas.specs.Tables.{schema};
ghost use Rattle.schemas.specs.Constants.{Alike, schema_from, coded};

use crate::Table;
use crate::tables::{
    CAF_KIND, CAF_MANDATORY, CAF_WIDTH, CAP_KIND, CAP_MANDATORY, CAP_WIDTH, MCF_KIND,
    MCF_MANDATORY, MCF_WIDTH, OCF_KIND, OCF_MANDATORY, OCF_WIDTH, OCP_KIND, OCP_MANDATORY,
    OCP_WIDTH, PCF_KIND, PCF_MANDATORY, PCF_WIDTH, PIC_KIND, PIC_MANDATORY, PIC_WIDTH, PID_KIND,
    PID_MANDATORY, PID_WIDTH, PLF_KIND, PLF_MANDATORY, PLF_WIDTH, TXF_KIND, TXF_MANDATORY,
    TXF_WIDTH, TXP_KIND, TXP_MANDATORY, TXP_WIDTH,
};

// A column's width, its mark, 1 where it is mandatory, and the number of its kind.
#[derive(Clone, Copy)]
pub struct ColumnCode {
    pub width: u8,
    pub mark: u8,
    pub kind: u8,
}

// By a table's constants; past the last column one that is 0 wide.
fn code_at(widths: &[u8], marks: &[u8], kinds: &[u8], k: usize) -> ColumnCode
    requires { Alike widths.now marks.now kinds.now }
    ensures { coded result ≡ get_or (schema_from widths.now marks.now kinds.now) k (text 0) }
{
    if k < widths.len() {
        return ColumnCode {
            width: widths[k],
            mark: marks[k],
            kind: kinds[k],
        };
    }
    ColumnCode {
        width: 0,
        mark: 0,
        kind: 0,
    }
}

// Column k of a table.
pub fn column_code(table: Table, k: usize) -> ColumnCode
    ensures { coded result ≡ get_or (schema table) k (text 0) }
{
    match table {
        Table::Pid => code_at(&PID_WIDTH, &PID_MANDATORY, &PID_KIND, k),
        Table::Pic => code_at(&PIC_WIDTH, &PIC_MANDATORY, &PIC_KIND, k),
        Table::Plf => code_at(&PLF_WIDTH, &PLF_MANDATORY, &PLF_KIND, k),
        Table::Pcf => code_at(&PCF_WIDTH, &PCF_MANDATORY, &PCF_KIND, k),
        Table::Caf => code_at(&CAF_WIDTH, &CAF_MANDATORY, &CAF_KIND, k),
        Table::Cap => code_at(&CAP_WIDTH, &CAP_MANDATORY, &CAP_KIND, k),
        Table::Txf => code_at(&TXF_WIDTH, &TXF_MANDATORY, &TXF_KIND, k),
        Table::Txp => code_at(&TXP_WIDTH, &TXP_MANDATORY, &TXP_KIND, k),
        Table::Ocf => code_at(&OCF_WIDTH, &OCF_MANDATORY, &OCF_KIND, k),
        Table::Ocp => code_at(&OCP_WIDTH, &OCP_MANDATORY, &OCP_KIND, k),
        Table::Mcf => code_at(&MCF_WIDTH, &MCF_MANDATORY, &MCF_KIND, k),
    }
}
