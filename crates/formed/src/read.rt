// The line that starts at a place of a table read: its verdict of reasons 1 to 8, what it says,
// and where the next one starts.
ghost use Rattle.std.specs.Prelude.{◌≡◌};
ghost use Rattle.schemas.specs.declared.Table.TheVariants.{Pid, Pic, Plf, Pcf, Caf, Cap, Txf, Txp, Ocf, Ocp, Mcf};
ghost use Rattle.lines.specs.Lines.{next_line, line_from};
ghost use Rattle.decoding.specs.Records.{pid_row, pic_row, plf_row, pcf_row, caf_row, cap_row, txf_row, txp_row, ocf_row, ocp_row, mcf_row};
ghost use Rattle.formed.specs.Formed.{or_contradiction, formed};

use contradictions::{
    caf_contradiction, ocf_contradiction, ocp_contradiction, pcf_contradiction, pic_contradiction,
    plf_contradiction, txf_contradiction, txp_contradiction,
};
use decoding::{
    caf_row, cap_row, mcf_ident, ocf_row, ocp_row, pcf_row, pic_row, pid_row, plf_row, txf_row,
    txp_row,
};
use lines::columns::{MOST_COLUMNS, part, scan};
use name_bytes::CurveName;
use rows::records::{
    CafRow, CapRow, OcfRow, OcpRow, PcfRow, PicRow, PidRow, PlfRow, TxfRow, TxpRow,
};
use schemas::by_table::{
    check_caf, check_cap, check_mcf, check_ocf, check_ocp, check_pcf, check_pic, check_pid,
    check_plf, check_txf, check_txp,
};
use schemas::verdict_of;

// A verdict of reasons 1 to 8, what the row says, and where the next line starts.
#[derive(Clone, Copy)]
pub struct RowRead<R> {
    pub verdict: u16,
    pub row: R,
    pub next: usize,
}

// A verdict of reasons 1 to 7, or else 8 at the column that contradicts, if one does.
fn or_contradiction(shaped: u16, column: u8) -> u16
    ensures { result ≡ or_contradiction shaped column }
{
    if shaped != 0 {
        return shaped;
    }
    if column == 0 {
        return 0;
    }
    verdict_of(8, column)
}

pub fn read_pid(table: &[u8], at: usize) -> RowRead<PidRow>
    ensures verdict_value { (result.verdict ≡ formed Pid (line_from table.now at)) × (result.row ≡ pid_row (line_from table.now at).bytes) }
    ensures next_value { result.next ≡ (next_line table.now at).next }
{
    let mut ends = [0usize; MOST_COLUMNS];
    let walk = scan(table, at, true, &mut ends);
    let line = part(table, at, walk.end);
    let shaped = check_pid(line, walk, &ends);
    let row = pid_row(line, &ends);
    RowRead {
        verdict: or_contradiction(shaped, 0),
        row,
        next: walk.next,
    }
}

pub fn read_pic(table: &[u8], at: usize) -> RowRead<PicRow>
    ensures verdict_value { (result.verdict ≡ formed Pic (line_from table.now at)) × (result.row ≡ pic_row (line_from table.now at).bytes) }
    ensures next_value { result.next ≡ (next_line table.now at).next }
{
    let mut ends = [0usize; MOST_COLUMNS];
    let walk = scan(table, at, true, &mut ends);
    let line = part(table, at, walk.end);
    let shaped = check_pic(line, walk, &ends);
    let row = pic_row(line, &ends);
    RowRead {
        verdict: or_contradiction(shaped, pic_contradiction(row)),
        row,
        next: walk.next,
    }
}

pub fn read_plf(table: &[u8], at: usize) -> RowRead<PlfRow>
    ensures verdict_value { (result.verdict ≡ formed Plf (line_from table.now at)) × (result.row ≡ plf_row (line_from table.now at).bytes) }
    ensures next_value { result.next ≡ (next_line table.now at).next }
{
    let mut ends = [0usize; MOST_COLUMNS];
    let walk = scan(table, at, true, &mut ends);
    let line = part(table, at, walk.end);
    let shaped = check_plf(line, walk, &ends);
    let row = plf_row(line, &ends);
    RowRead {
        verdict: or_contradiction(shaped, plf_contradiction(row)),
        row,
        next: walk.next,
    }
}

pub fn read_pcf(table: &[u8], at: usize) -> RowRead<PcfRow>
    ensures verdict_value { (result.verdict ≡ formed Pcf (line_from table.now at)) × (result.row ≡ pcf_row (line_from table.now at).bytes) }
    ensures next_value { result.next ≡ (next_line table.now at).next }
{
    let mut ends = [0usize; MOST_COLUMNS];
    let walk = scan(table, at, true, &mut ends);
    let line = part(table, at, walk.end);
    let shaped = check_pcf(line, walk, &ends);
    let row = pcf_row(line, &ends);
    RowRead {
        verdict: or_contradiction(shaped, pcf_contradiction(row)),
        row,
        next: walk.next,
    }
}

pub fn read_caf(table: &[u8], at: usize) -> RowRead<CafRow>
    ensures verdict_value { (result.verdict ≡ formed Caf (line_from table.now at)) × (result.row ≡ caf_row (line_from table.now at).bytes) }
    ensures next_value { result.next ≡ (next_line table.now at).next }
{
    let mut ends = [0usize; MOST_COLUMNS];
    let walk = scan(table, at, true, &mut ends);
    let line = part(table, at, walk.end);
    let shaped = check_caf(line, walk, &ends);
    let row = caf_row(line, &ends);
    RowRead {
        verdict: or_contradiction(shaped, caf_contradiction(row)),
        row,
        next: walk.next,
    }
}

pub fn read_cap(table: &[u8], at: usize) -> RowRead<CapRow>
    ensures verdict_value { (result.verdict ≡ formed Cap (line_from table.now at)) × (result.row ≡ cap_row (line_from table.now at).bytes) }
    ensures next_value { result.next ≡ (next_line table.now at).next }
{
    let mut ends = [0usize; MOST_COLUMNS];
    let walk = scan(table, at, true, &mut ends);
    let line = part(table, at, walk.end);
    let shaped = check_cap(line, walk, &ends);
    let row = cap_row(line, &ends);
    RowRead {
        verdict: or_contradiction(shaped, 0),
        row,
        next: walk.next,
    }
}

pub fn read_txf(table: &[u8], at: usize) -> RowRead<TxfRow>
    ensures verdict_value { (result.verdict ≡ formed Txf (line_from table.now at)) × (result.row ≡ txf_row (line_from table.now at).bytes) }
    ensures next_value { result.next ≡ (next_line table.now at).next }
{
    let mut ends = [0usize; MOST_COLUMNS];
    let walk = scan(table, at, true, &mut ends);
    let line = part(table, at, walk.end);
    let shaped = check_txf(line, walk, &ends);
    let row = txf_row(line, &ends);
    RowRead {
        verdict: or_contradiction(shaped, txf_contradiction(row)),
        row,
        next: walk.next,
    }
}

pub fn read_txp(table: &[u8], at: usize) -> RowRead<TxpRow>
    ensures verdict_value { (result.verdict ≡ formed Txp (line_from table.now at)) × (result.row ≡ txp_row (line_from table.now at).bytes) }
    ensures next_value { result.next ≡ (next_line table.now at).next }
{
    let mut ends = [0usize; MOST_COLUMNS];
    let walk = scan(table, at, true, &mut ends);
    let line = part(table, at, walk.end);
    let shaped = check_txp(line, walk, &ends);
    let row = txp_row(line, &ends);
    RowRead {
        verdict: or_contradiction(shaped, txp_contradiction(row)),
        row,
        next: walk.next,
    }
}

pub fn read_ocf(table: &[u8], at: usize) -> RowRead<OcfRow>
    ensures verdict_value { (result.verdict ≡ formed Ocf (line_from table.now at)) × (result.row ≡ ocf_row (line_from table.now at).bytes) }
    ensures next_value { result.next ≡ (next_line table.now at).next }
{
    let mut ends = [0usize; MOST_COLUMNS];
    let walk = scan(table, at, true, &mut ends);
    let line = part(table, at, walk.end);
    let shaped = check_ocf(line, walk, &ends);
    let row = ocf_row(line, &ends);
    RowRead {
        verdict: or_contradiction(shaped, ocf_contradiction(row)),
        row,
        next: walk.next,
    }
}

pub fn read_ocp(table: &[u8], at: usize) -> RowRead<OcpRow>
    ensures verdict_value { (result.verdict ≡ formed Ocp (line_from table.now at)) × (result.row ≡ ocp_row (line_from table.now at).bytes) }
    ensures next_value { result.next ≡ (next_line table.now at).next }
{
    let mut ends = [0usize; MOST_COLUMNS];
    let walk = scan(table, at, true, &mut ends);
    let line = part(table, at, walk.end);
    let shaped = check_ocp(line, walk, &ends);
    let row = ocp_row(line, &ends);
    RowRead {
        verdict: or_contradiction(shaped, ocp_contradiction(row)),
        row,
        next: walk.next,
    }
}

// Of an mcf row IDENT alone is decoded: its coefficients are for the questions of packets.
pub fn read_mcf(table: &[u8], at: usize) -> RowRead<CurveName>
    ensures verdict_value { (result.verdict ≡ formed Mcf (line_from table.now at)) × (result.row ≡ (mcf_row (line_from table.now at).bytes).ident) }
    ensures next_value { result.next ≡ (next_line table.now at).next }
{
    let mut ends = [0usize; MOST_COLUMNS];
    let walk = scan(table, at, true, &mut ends);
    let line = part(table, at, walk.end);
    let shaped = check_mcf(line, walk, &ends);
    let row = mcf_ident(line, &ends);
    RowRead {
        verdict: or_contradiction(shaped, 0),
        row,
        next: walk.next,
    }
}
