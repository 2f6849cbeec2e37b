// Reason 8: the lowest column of a row that contradicts another, or 0.
#![tactic(auto)]

ghost use Rattle.std.specs.Prelude.{◌≡◌};
ghost use Rattle.contradictions.specs.Contradictions.{is_whole, no_width, pic_contradiction, plf_contradiction, is_refused};
ghost use Rattle.contradictions.specs.Contradictions.{category_clash, curve_clash, pcf_contradiction, is_real, caf_contradiction};
ghost use Rattle.contradictions.specs.Contradictions.{txf_contradiction, txp_contradiction, is_carried_coding, ocf_contradiction, is_carried_check};
ghost use Rattle.contradictions.specs.Contradictions.{ocp_contradiction};
ghost use Rattle.widths.specs.Width.{width_of};

use rows::letters::{Category, CheckType, Format, LimitCoding};
use rows::records::{
    CafRow, IdentificationField, OcfRow, OcpRow, PcfRow, PicRow, PlfRow, TxfRow, TxpRow,
};
use widths::width_of;

// A field that is used, and has no bit.
#[tactic(auto, unfolding(crate::specs::Contradictions::no_width))]
fn no_width(field: IdentificationField) -> bool
    ensures { result ≡ no_width field }
{
    match field {
        IdentificationField::Unused => false,
        IdentificationField::At(_, width) => width == 0,
    }
}

#[tactic(auto, unfolding(crate::specs::Contradictions::pic_contradiction))]
pub fn pic_contradiction(row: PicRow) -> u8
    ensures { result ≡ pic_contradiction row }
{
    let first = row.pi1;
    if no_width(first) {
        return 4;
    }
    let second = row.pi2;
    if no_width(second) {
        return 6;
    }
    0
}

#[tactic(auto, unfolding(crate::specs::Contradictions::plf_contradiction))]
pub fn plf_contradiction(row: PlfRow) -> u8
    ensures { result ≡ plf_contradiction row }
{
    if 1 < row.nbocc {
        if row.lgocc.0 == 0 {
            return 6;
        }
    }
    0
}

fn has_no_width(ptc: u32, pfc: u32) -> bool
    ensures { result ≡ is_refused (width_of ptc pfc) }
{
    width_of(ptc, pfc).is_none()
}

// Whether a type code is that of a whole number: 1 to 4.
pub fn is_whole(ptc: u32) -> bool
    ensures { result ≡ is_whole ptc }
{
    if 1 <= ptc {
        return ptc <= 4;
    }
    false
}

#[tactic(auto, unfolding(crate::specs::Contradictions::category_clash))]
fn category_clash(categ: Category, ptc: u32) -> bool
    ensures { result ≡ category_clash categ ptc }
{
    match categ {
        Category::Numeric => ptc == 8,
        Category::Status => !is_whole(ptc),
        Category::Text => ptc != 8,
    }
}

#[tactic(auto, unfolding(crate::specs::Contradictions::curve_clash))]
fn curve_clash(categ: Category, given: bool, ptc: u32) -> bool
    ensures { result ≡ curve_clash categ given ptc }
{
    match categ {
        Category::Numeric => {
            if given {
                return !is_whole(ptc);
            }
            false
        }
        Category::Status => !given,
        Category::Text => given,
    }
}

pub fn pcf_contradiction(row: PcfRow) -> u8
    ensures { result ≡ pcf_contradiction row }
{
    if has_no_width(row.ptc, row.pfc) {
        return 6;
    }
    let categ = row.categ;
    if category_clash(categ, row.ptc) {
        return 10;
    }
    if curve_clash(categ, row.curtx.given, row.ptc) {
        return 12;
    }
    0
}

#[tactic(auto, unfolding(crate::specs::Contradictions::is_real))]
fn is_real(format: Format) -> bool
    ensures { result ≡ is_real format }
{
    match format {
        Format::Signed => false,
        Format::Unsigned => false,
        Format::Real => true,
    }
}

#[tactic(auto, unfolding(crate::specs::Contradictions::caf_contradiction))]
pub fn caf_contradiction(row: CafRow) -> u8
    ensures { result ≡ caf_contradiction row }
{
    let engineering = row.engfmt;
    if is_real(engineering) {
        return 3;
    }
    let raw = row.rawfmt;
    if is_real(raw) {
        return 4;
    }
    0
}

#[tactic(auto, unfolding(crate::specs::Contradictions::txf_contradiction))]
pub fn txf_contradiction(row: TxfRow) -> u8
    ensures { result ≡ txf_contradiction row }
{
    let raw = row.rawfmt;
    if is_real(raw) {
        return 3;
    }
    0
}

pub fn txp_contradiction(row: TxpRow) -> u8
    ensures { result ≡ txp_contradiction row }
{
    if row.to < row.from {
        return 3;
    }
    0
}

#[tactic(auto, unfolding(crate::specs::Contradictions::is_carried_coding))]
fn is_carried_coding(coding: LimitCoding) -> bool
    ensures { result ≡ is_carried_coding coding }
{
    match coding {
        LimitCoding::Real => false,
        LimitCoding::Text => false,
        LimitCoding::Integer => true,
    }
}

#[tactic(auto, unfolding(crate::specs::Contradictions::ocf_contradiction))]
pub fn ocf_contradiction(row: OcfRow) -> u8
    ensures { result ≡ ocf_contradiction row }
{
    let coding = row.codin;
    if is_carried_coding(coding) {
        return 0;
    }
    5
}

#[tactic(auto, unfolding(crate::specs::Contradictions::is_carried_check))]
fn is_carried_check(check: CheckType) -> bool
    ensures { result ≡ is_carried_check check }
{
    match check {
        CheckType::Soft => true,
        CheckType::Hard => true,
        CheckType::Delta => false,
        CheckType::Consistency => false,
        CheckType::Event => false,
    }
}

pub fn ocp_contradiction(row: OcpRow) -> u8
    ensures { result ≡ ocp_contradiction row }
{
    let check = row.check;
    if is_carried_check(check) {
        if row.hvalu < row.lvalu {
            return 5;
        }
        return 0;
    }
    3
}
