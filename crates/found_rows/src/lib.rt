// Rows that a question found, decoded: of each the line is walked once, which tells where it and its columns end.
#![tactic(auto)]

ghost use Rattle.std.specs.Prelude.{◌≡◌, map, ◌<◌, ◌^◌, length, replicate};
ghost use Rattle.lines.specs.Columns.{column_in};
ghost use Rattle.rows.specs.Values.{natural_or};
ghost use Rattle.decoding.specs.Records.{pid_row, pic_row, plf_row, pcf_row, caf_row, cap_row, txp_row, ocf_row, ocp_row, mcf_row};
ghost use Rattle.raw_values.specs.RawValues.{location_of};
ghost use Rattle.database.specs.Packets.{numbers_in};
ghost use Rattle.database.specs.Arrays.{row_at};
ghost use Rattle.found_rows.specs.Divided.{DividedRow};

use database::{start_of, table_of};
use decoding::{caf_row, cap_row, mcf_row, ocf_row, ocp_row, pcf_row, pic_row, txp_row};
use key_symbols::FiveNumbers;
use lines::columns::{MOST_COLUMNS, column, part, scan};
use raw_values::place::{LineBits, LineByte, Location};
use rows::records::{CafRow, CapRow, McfRow, OcfRow, OcpRow, PcfRow, PicRow, TxpRow};
use rows::values::natural_or;
use tables::TABLES;
use units::Spid;

// The line of row i, from 0, and where its columns end.
fn divide_row<'a>(
    tables: [&'a [u8]; TABLES],
    columns: &[u16],
    i: usize,
    ends: &mut [usize; MOST_COLUMNS],
) -> &'a [u8]
    requires { ends.old ≡ replicate 24 0 }
    ensures { DividedRow (map (λ x. x.now) tables.entry) columns.now i result.now ends.new }
{
    let table = table_of(tables, columns, i);
    let start = start_of(columns, i);
    let walk = scan(table, start, true, ends);
    part(table, start, walk.end)
}

// The number in a column.
fn number_in(line: &[u8], ends: &[usize], k: usize, default: u32) -> u32
    ensures { result ≡ natural_or default (column_in line.now ends.now k) }
{
    natural_or(column(line, ends, k), default)
}

// SPID of the pid row i: of its columns the sixth alone is decoded.
pub fn spid_at(tables: [&[u8]; TABLES], columns: &[u16], i: usize) -> Spid
    ensures { result ≡ (pid_row (row_at (map (λ x. x.now) tables.entry) columns.now i).bytes).spid }
{
    let mut ends = [0usize; MOST_COLUMNS];
    let line = divide_row(tables, columns, i, &mut ends);
    Spid(number_in(line, &ends, 5, 0))
}

// The five numbers of the pid row i.
pub fn numbers_at(tables: [&[u8]; TABLES], columns: &[u16], i: usize) -> FiveNumbers
    ensures { result ≡ numbers_in (row_at (map (λ x. x.now) tables.entry) columns.now i) }
{
    let mut ends = [0usize; MOST_COLUMNS];
    let line = divide_row(tables, columns, i, &mut ends);
    FiveNumbers {
        ptype: number_in(line, &ends, 0, 0),
        stype: number_in(line, &ends, 1, 0),
        apid: number_in(line, &ends, 2, 0),
        pi1: number_in(line, &ends, 3, 0) as u64,
        pi2: number_in(line, &ends, 4, 0) as u64,
    }
}

// Where the plf row i locates its parameter.
pub fn location_at(tables: [&[u8]; TABLES], columns: &[u16], i: usize) -> Location
    ensures { result ≡ location_of (plf_row (row_at (map (λ x. x.now) tables.entry) columns.now i).bytes) }
{
    let mut ends = [0usize; MOST_COLUMNS];
    let line = divide_row(tables, columns, i, &mut ends);
    Location {
        offby: LineByte(number_in(line, &ends, 2, 0)),
        offbi: LineBits(number_in(line, &ends, 3, 0)),
        nbocc: number_in(line, &ends, 4, 1),
        lgocc: LineBits(number_in(line, &ends, 5, 0)),
    }
}

pub fn pic_at(tables: [&[u8]; TABLES], columns: &[u16], i: usize) -> PicRow
    ensures { result ≡ pic_row (row_at (map (λ x. x.now) tables.entry) columns.now i).bytes }
{
    let mut ends = [0usize; MOST_COLUMNS];
    let line = divide_row(tables, columns, i, &mut ends);
    pic_row(line, &ends)
}

pub fn pcf_at(tables: [&[u8]; TABLES], columns: &[u16], i: usize) -> PcfRow
    ensures { result ≡ pcf_row (row_at (map (λ x. x.now) tables.entry) columns.now i).bytes }
{
    let mut ends = [0usize; MOST_COLUMNS];
    let line = divide_row(tables, columns, i, &mut ends);
    pcf_row(line, &ends)
}

pub fn caf_at(tables: [&[u8]; TABLES], columns: &[u16], i: usize) -> CafRow
    ensures { result ≡ caf_row (row_at (map (λ x. x.now) tables.entry) columns.now i).bytes }
{
    let mut ends = [0usize; MOST_COLUMNS];
    let line = divide_row(tables, columns, i, &mut ends);
    caf_row(line, &ends)
}

pub fn cap_at(tables: [&[u8]; TABLES], columns: &[u16], i: usize) -> CapRow
    ensures { result ≡ cap_row (row_at (map (λ x. x.now) tables.entry) columns.now i).bytes }
{
    let mut ends = [0usize; MOST_COLUMNS];
    let line = divide_row(tables, columns, i, &mut ends);
    cap_row(line, &ends)
}

// A line is short enough that ALTXT's place in its table is a word.
pub fn txp_at(tables: [&[u8]; TABLES], columns: &[u16], i: usize) -> TxpRow
    ensures value { result ≡ txp_row (row_at (map (λ x. x.now) tables.entry) columns.now i).bytes }
    ensures i_len_bound { length (row_at (map (λ x. x.now) tables.entry) columns.now i).bytes < 2 ^ 63 }
{
    let mut ends = [0usize; MOST_COLUMNS];
    let line = divide_row(tables, columns, i, &mut ends);
    txp_row(line, &ends)
}

pub fn ocf_at(tables: [&[u8]; TABLES], columns: &[u16], i: usize) -> OcfRow
    ensures { result ≡ ocf_row (row_at (map (λ x. x.now) tables.entry) columns.now i).bytes }
{
    let mut ends = [0usize; MOST_COLUMNS];
    let line = divide_row(tables, columns, i, &mut ends);
    ocf_row(line, &ends)
}

pub fn ocp_at(tables: [&[u8]; TABLES], columns: &[u16], i: usize) -> OcpRow
    ensures { result ≡ ocp_row (row_at (map (λ x. x.now) tables.entry) columns.now i).bytes }
{
    let mut ends = [0usize; MOST_COLUMNS];
    let line = divide_row(tables, columns, i, &mut ends);
    ocp_row(line, &ends)
}

pub fn mcf_at(tables: [&[u8]; TABLES], columns: &[u16], i: usize) -> McfRow
    ensures { result ≡ mcf_row (row_at (map (λ x. x.now) tables.entry) columns.now i).bytes }
{
    let mut ends = [0usize; MOST_COLUMNS];
    let line = divide_row(tables, columns, i, &mut ends);
    mcf_row(line, &ends)
}
