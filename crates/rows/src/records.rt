// What later layers need of a row, a struct for each table with the names of its columns: numbers after defaults,
// letters as enums, names, and whether an optional column was given.
use crate::letters::{
    Category, CheckType, Format, LimitCoding, LimitValue, Nature, OffEnds, Valid,
};
use name_bytes::{CurveName, Name};
use polynomials::Polynomial;
use units::{BitOffset, ByteOffset, Spid};

// A name in a column that may be empty; not given, it is the empty name.
#[derive(Clone, Copy)]
pub struct OptionalName {
    pub given: bool,
    pub name: Name,
}

#[derive(Clone, Copy)]
pub struct OptionalCurve {
    pub given: bool,
    pub name: CurveName,
}

// PI1 or PI2 of a pic row: unused, or from the first bit of a byte on, so many bits wide.
#[derive(Clone, Copy)]
pub enum IdentificationField {
    Unused,
    At(ByteOffset, u32),
}

#[derive(Clone, Copy)]
pub struct PidRow {
    pub ptype: u32,
    pub stype: u32,
    pub apid: u32,
    pub pi1: u32,
    pub pi2: u32,
    pub spid: Spid,
    pub valid: Valid,
}

// apid: none where its column is empty.
#[derive(Clone, Copy)]
pub struct PicRow {
    pub ptype: u32,
    pub stype: u32,
    pub pi1: IdentificationField,
    pub pi2: IdentificationField,
    pub apid: Option<u32>,
}

#[derive(Clone, Copy)]
pub struct PlfRow {
    pub name: Name,
    pub spid: Spid,
    pub offby: ByteOffset,
    pub offbi: BitOffset,
    pub nbocc: u32,
    pub lgocc: BitOffset,
}

#[derive(Clone, Copy)]
pub struct PcfRow {
    pub name: Name,
    pub ptc: u32,
    pub pfc: u32,
    pub valid: OptionalName,
    pub categ: Category,
    pub natur: Nature,
    pub curtx: OptionalCurve,
    pub valpar: i64,
}

#[derive(Clone, Copy)]
pub struct CafRow {
    pub numbr: CurveName,
    pub engfmt: Format,
    pub rawfmt: Format,
    pub ncurve: u32,
    pub inter: OffEnds,
}

#[derive(Clone, Copy)]
pub struct CapRow {
    pub numbr: CurveName,
    pub xvals: i64,
    pub yvals: i64,
}

#[derive(Clone, Copy)]
pub struct TxfRow {
    pub numbr: CurveName,
    pub rawfmt: Format,
    pub nalias: u32,
}

// ALTXT stands in the line from the byte `start` on, to before the byte `end`.
#[derive(Clone, Copy)]
pub struct TxpRow {
    pub numbr: CurveName,
    pub from: i64,
    pub to: i64,
    pub start: usize,
    pub end: usize,
}

#[derive(Clone, Copy)]
pub struct OcfRow {
    pub name: Name,
    pub nbchck: u32,
    pub nbool: u32,
    pub inter: LimitValue,
    pub codin: LimitCoding,
}

#[derive(Clone, Copy)]
pub struct OcpRow {
    pub name: Name,
    pub pos: u32,
    pub check: CheckType,
    pub lvalu: i64,
    pub hvalu: i64,
    pub rlchk: OptionalName,
    pub valpar: i64,
}

#[derive(Clone, Copy)]
pub struct McfRow {
    pub ident: CurveName,
    pub polynomial: Polynomial,
}
