// The line of each table decoded, by where its columns end.
#![tactic(auto)]

ghost use Rattle.std.specs.Prelude.{◌≡◌, ◌-◌, length, get_or};
ghost use Rattle.lines.specs.Columns.{column_in};
ghost use Rattle.decoding.specs.Records.{pid_row_by, pic_row_by, plf_row_by, pcf_row_by, caf_row_by, cap_row_by, txf_row_by, txp_row_by, ocf_row_by, ocp_row_by, mcf_row_by};

use lines::columns::column;
use name_bytes::CurveName;
use polynomials::Polynomial;
use rows::at::{
    coefficient_at, curve_at, identification_at, integer_at, letter_at, name_at, natural_at,
    optional_apid_at, optional_curve_at, optional_name_at,
};
use rows::letters::{Category, CheckType, Format, LimitCoding, LimitValue, Nature, OffEnds, Valid};
use rows::records::{
    CafRow, CapRow, McfRow, OcfRow, OcpRow, PcfRow, PicRow, PidRow, PlfRow, TxfRow, TxpRow,
};
use units::{BitOffset, ByteOffset, Spid};

pub fn pid_row(line: &[u8], ends: &[usize]) -> PidRow
    ensures { result ≡ pid_row_by (column_in line.now ends.now) }
{
    PidRow {
        ptype: natural_at(line, ends, 0, 0),
        stype: natural_at(line, ends, 1, 0),
        apid: natural_at(line, ends, 2, 0),
        pi1: natural_at(line, ends, 3, 0),
        pi2: natural_at(line, ends, 4, 0),
        spid: Spid(natural_at(line, ends, 5, 0)),
        valid: Valid::from(letter_at(line, ends, 12)),
    }
}

pub fn pic_row(line: &[u8], ends: &[usize]) -> PicRow
    ensures { result ≡ pic_row_by (column_in line.now ends.now) }
{
    PicRow {
        ptype: natural_at(line, ends, 0, 0),
        stype: natural_at(line, ends, 1, 0),
        pi1: identification_at(line, ends, 2, 3),
        pi2: identification_at(line, ends, 4, 5),
        apid: optional_apid_at(line, ends, 6),
    }
}

pub fn plf_row(line: &[u8], ends: &[usize]) -> PlfRow
    ensures { result ≡ plf_row_by (column_in line.now ends.now) }
{
    PlfRow {
        name: name_at(line, ends, 0),
        spid: Spid(natural_at(line, ends, 1, 0)),
        offby: ByteOffset(natural_at(line, ends, 2, 0) as usize),
        offbi: BitOffset(natural_at(line, ends, 3, 0) as usize),
        nbocc: natural_at(line, ends, 4, 1),
        lgocc: BitOffset(natural_at(line, ends, 5, 0) as usize),
    }
}

pub fn pcf_row(line: &[u8], ends: &[usize]) -> PcfRow
    ensures { result ≡ pcf_row_by (column_in line.now ends.now) }
{
    PcfRow {
        name: name_at(line, ends, 0),
        ptc: natural_at(line, ends, 4, 0),
        pfc: natural_at(line, ends, 5, 0),
        valid: optional_name_at(line, ends, 7),
        categ: Category::from(letter_at(line, ends, 9)),
        natur: Nature::from(letter_at(line, ends, 10)),
        curtx: optional_curve_at(line, ends, 11),
        valpar: integer_at(line, ends, 17, 1),
    }
}

pub fn caf_row(line: &[u8], ends: &[usize]) -> CafRow
    ensures { result ≡ caf_row_by (column_in line.now ends.now) }
{
    CafRow {
        numbr: curve_at(line, ends, 0),
        engfmt: Format::from(letter_at(line, ends, 2)),
        rawfmt: Format::from(letter_at(line, ends, 3)),
        ncurve: natural_at(line, ends, 6, 0),
        inter: OffEnds::from(letter_at(line, ends, 7)),
    }
}

pub fn cap_row(line: &[u8], ends: &[usize]) -> CapRow
    ensures { result ≡ cap_row_by (column_in line.now ends.now) }
{
    CapRow {
        numbr: curve_at(line, ends, 0),
        xvals: integer_at(line, ends, 1, 0),
        yvals: integer_at(line, ends, 2, 0),
    }
}

pub fn txf_row(line: &[u8], ends: &[usize]) -> TxfRow
    ensures { result ≡ txf_row_by (column_in line.now ends.now) }
{
    TxfRow {
        numbr: curve_at(line, ends, 0),
        rawfmt: Format::from(letter_at(line, ends, 2)),
        nalias: natural_at(line, ends, 3, 0),
    }
}

// Where a column ends, 0 where it has no end.
fn end_at(ends: &[usize], k: usize) -> usize
    ensures { result ≡ get_or ends.now k 0 }
{
    if k < ends.len() { ends[k] } else { 0 }
}

// ALTXT starts as many bytes before its end as it has.
pub fn txp_row(line: &[u8], ends: &[usize]) -> TxpRow
    ensures { result ≡ txp_row_by (column_in line.now ends.now)
        (get_or ends.now 3 0 - length (column_in line.now ends.now 3)) (get_or ends.now 3 0) }
{
    let end = end_at(ends, 3);
    let text = column(line, ends, 3);
    TxpRow {
        numbr: curve_at(line, ends, 0),
        from: integer_at(line, ends, 1, 0),
        to: integer_at(line, ends, 2, 0),
        start: end - text.len(),
        end,
    }
}

pub fn ocf_row(line: &[u8], ends: &[usize]) -> OcfRow
    ensures { result ≡ ocf_row_by (column_in line.now ends.now) }
{
    OcfRow {
        name: name_at(line, ends, 0),
        nbchck: natural_at(line, ends, 1, 0),
        nbool: natural_at(line, ends, 2, 0),
        inter: LimitValue::from(letter_at(line, ends, 3)),
        codin: LimitCoding::from(letter_at(line, ends, 4)),
    }
}

pub fn ocp_row(line: &[u8], ends: &[usize]) -> OcpRow
    ensures { result ≡ ocp_row_by (column_in line.now ends.now) }
{
    OcpRow {
        name: name_at(line, ends, 0),
        pos: natural_at(line, ends, 1, 0),
        check: CheckType::from(letter_at(line, ends, 2)),
        lvalu: integer_at(line, ends, 3, 0),
        hvalu: integer_at(line, ends, 4, 0),
        rlchk: optional_name_at(line, ends, 5),
        valpar: integer_at(line, ends, 6, 1),
    }
}

// IDENT alone: what other rows need of an mcf row.
pub fn mcf_ident(line: &[u8], ends: &[usize]) -> CurveName
    ensures { result ≡ (mcf_row_by (column_in line.now ends.now)).ident }
{
    curve_at(line, ends, 0)
}

pub fn mcf_row(line: &[u8], ends: &[usize]) -> McfRow
    ensures { result ≡ mcf_row_by (column_in line.now ends.now) }
{
    McfRow {
        ident: curve_at(line, ends, 0),
        polynomial: Polynomial {
            pol1: coefficient_at(line, ends, 2),
            pol2: coefficient_at(line, ends, 3),
            pol3: coefficient_at(line, ends, 4),
            pol4: coefficient_at(line, ends, 5),
            pol5: coefficient_at(line, ends, 6),
        },
    }
}
