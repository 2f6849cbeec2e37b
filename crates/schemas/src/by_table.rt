// The check of a row of each table, driven by its constants. Each has its own function: one for all would make the
// arrays of all tables anew for each row.
ghost use Rattle.std.specs.Prelude.{◌≡◌, length};
ghost use Rattle.lines.specs.Columns.{column_in};
ghost use Rattle.schemas.specs.Tables.{schema};
ghost use Rattle.schemas.specs.Reasons.{shape_by};
ghost use Rattle.schemas.specs.declared.Table.TheVariants.{Pid, Pic, Plf, Pcf, Caf, Cap, Txf, Txp, Ocf, Ocp, Mcf};

use crate::check_row;
use crate::tables::{
    CAF_KIND, CAF_MANDATORY, CAF_WIDTH, CAP_KIND, CAP_MANDATORY, CAP_WIDTH, MCF_KIND,
    MCF_MANDATORY, MCF_WIDTH, OCF_KIND, OCF_MANDATORY, OCF_WIDTH, OCP_KIND, OCP_MANDATORY,
    OCP_WIDTH, PCF_KIND, PCF_MANDATORY, PCF_WIDTH, PIC_KIND, PIC_MANDATORY, PIC_WIDTH, PID_KIND,
    PID_MANDATORY, PID_WIDTH, PLF_KIND, PLF_MANDATORY, PLF_WIDTH, TXF_KIND, TXF_MANDATORY,
    TXF_WIDTH, TXP_KIND, TXP_MANDATORY, TXP_WIDTH,
};
use lines::columns::Scanned;

pub fn check_pid(line: &[u8], walk: Scanned, ends: &[usize]) -> u16
    ensures { result ≡ shape_by (schema Pid) walk (length line.now) (column_in line.now ends.now) }
{
    check_row(line, walk, ends, &PID_WIDTH, &PID_MANDATORY, &PID_KIND)
}

pub fn check_pic(line: &[u8], walk: Scanned, ends: &[usize]) -> u16
    ensures { result ≡ shape_by (schema Pic) walk (length line.now) (column_in line.now ends.now) }
{
    check_row(line, walk, ends, &PIC_WIDTH, &PIC_MANDATORY, &PIC_KIND)
}

pub fn check_plf(line: &[u8], walk: Scanned, ends: &[usize]) -> u16
    ensures { result ≡ shape_by (schema Plf) walk (length line.now) (column_in line.now ends.now) }
{
    check_row(line, walk, ends, &PLF_WIDTH, &PLF_MANDATORY, &PLF_KIND)
}

pub fn check_pcf(line: &[u8], walk: Scanned, ends: &[usize]) -> u16
    ensures { result ≡ shape_by (schema Pcf) walk (length line.now) (column_in line.now ends.now) }
{
    check_row(line, walk, ends, &PCF_WIDTH, &PCF_MANDATORY, &PCF_KIND)
}

pub fn check_caf(line: &[u8], walk: Scanned, ends: &[usize]) -> u16
    ensures { result ≡ shape_by (schema Caf) walk (length line.now) (column_in line.now ends.now) }
{
    check_row(line, walk, ends, &CAF_WIDTH, &CAF_MANDATORY, &CAF_KIND)
}

pub fn check_cap(line: &[u8], walk: Scanned, ends: &[usize]) -> u16
    ensures { result ≡ shape_by (schema Cap) walk (length line.now) (column_in line.now ends.now) }
{
    check_row(line, walk, ends, &CAP_WIDTH, &CAP_MANDATORY, &CAP_KIND)
}

pub fn check_txf(line: &[u8], walk: Scanned, ends: &[usize]) -> u16
    ensures { result ≡ shape_by (schema Txf) walk (length line.now) (column_in line.now ends.now) }
{
    check_row(line, walk, ends, &TXF_WIDTH, &TXF_MANDATORY, &TXF_KIND)
}

pub fn check_txp(line: &[u8], walk: Scanned, ends: &[usize]) -> u16
    ensures { result ≡ shape_by (schema Txp) walk (length line.now) (column_in line.now ends.now) }
{
    check_row(line, walk, ends, &TXP_WIDTH, &TXP_MANDATORY, &TXP_KIND)
}

pub fn check_ocf(line: &[u8], walk: Scanned, ends: &[usize]) -> u16
    ensures { result ≡ shape_by (schema Ocf) walk (length line.now) (column_in line.now ends.now) }
{
    check_row(line, walk, ends, &OCF_WIDTH, &OCF_MANDATORY, &OCF_KIND)
}

pub fn check_ocp(line: &[u8], walk: Scanned, ends: &[usize]) -> u16
    ensures { result ≡ shape_by (schema Ocp) walk (length line.now) (column_in line.now ends.now) }
{
    check_row(line, walk, ends, &OCP_WIDTH, &OCP_MANDATORY, &OCP_KIND)
}

pub fn check_mcf(line: &[u8], walk: Scanned, ends: &[usize]) -> u16
    ensures { result ≡ shape_by (schema Mcf) walk (length line.now) (column_in line.now ends.now) }
{
    check_row(line, walk, ends, &MCF_WIDTH, &MCF_MANDATORY, &MCF_KIND)
}
