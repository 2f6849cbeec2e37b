// A parameter in a packet, checked.
ghost use Rattle.std.specs.Prelude.{◌≡◌, map, length};
ghost use Rattle.outcomes.specs.Outcome.{and_then, answer};
ghost use Rattle.outcomes.specs.Refusals.{said};
ghost use Rattle.database.specs.Arrays.{database, answers};
ghost use Rattle.curve_values.specs.Scale.{scale_in};
ghost use Rattle.severity.specs.Checks.{checks_in};
ghost use Rattle.occurrences.specs.Values.{scale_under, values_of};
ghost use Rattle.occurrences.specs.Progress.{progress_by, checked_of};
ghost use Rattle.checking.specs.Places.{rows_at};
ghost use Rattle.checking.specs.Manner.{MannerOf};

use crate::checks::gather_checks;
use announced::Progress;
use curve_values::scale::{Scale, gather_scale};
use database::MOST_MEMBERS;
use found_rows::{location_at, pcf_at};
use located_readings::validity;
use name_bytes::Name;
use occurrences::{Manner, check_occurrences};
use outcomes::Refusal;
use parameters::Places;
use rows::letters::LimitValue;
use rows::records::{OcfRow, OptionalCurve, PcfRow};
use tables::TABLES;
use units::Spid;

// What is checked: a parameter in packets of a SPID, its limits, and the places of its plf and pcf rows.
#[derive(Clone, Copy)]
pub struct Subject {
    pub spid: Spid,
    pub name: Name,
    pub limits: OcfRow,
    pub at: Places,
}

// How the value that is checked comes from the raw one, by INTER and CURTX.
fn scale_under(
    tables: [&[u8]; TABLES],
    words: &[u64],
    links: &[u16],
    columns: &[u16],
    inter: LimitValue,
    curtx: OptionalCurve,
    xs: &mut [i64; MOST_MEMBERS],
    ys: &mut [i64; MOST_MEMBERS],
) -> Scale
    requires { (length xs.old ≡ 1024) × (length ys.old ≡ 1024) }
    ensures ys_after { scale_in result xs.new ys.new
        ≡ scale_under (answers (database (map (λ x. x.now) tables.entry) words.now links.now columns.now)) inter curtx }
    ensures xs_len { (length xs.new ≡ 1024) × (length ys.new ≡ 1024) }
{
    match inter {
        LimitValue::Raw => Scale::AsRead,
        LimitValue::Engineering => gather_scale(tables, words, links, columns, curtx, xs, ys),
    }
}

// How the readings of the parameter with this pcf row are checked. The points of its curve are the first of the arrays.
fn manner_of(
    tables: [&[u8]; TABLES],
    words: &[u64],
    links: &[u16],
    columns: &[u16],
    p: &[u8],
    subject: Subject,
    pcf: PcfRow,
    xs: &mut [i64; MOST_MEMBERS],
    ys: &mut [i64; MOST_MEMBERS],
) -> Manner
    requires { (length xs.old ≡ 1024) × (length ys.old ≡ 1024) }
    ensures { MannerOf (answers (database (map (λ x. x.now) tables.entry) words.now links.now columns.now))
        p.now subject.spid.0 subject.limits pcf result xs.new ys.new }
{
    let spid = subject.spid;
    let limits = subject.limits;
    let inter = limits.inter;
    let nbchck = limits.nbchck;
    let curtx = pcf.curtx;
    let valid = validity(tables, words, links, columns, p, spid, pcf);
    let scale = scale_under(tables, words, links, columns, inter, curtx, xs, ys);
    Manner {
        nbchck,
        valid,
        scale,
    }
}

// By these checks. The curve's points are gathered once.
fn check_by(
    tables: [&[u8]; TABLES],
    words: &[u64],
    links: &[u16],
    columns: &[u16],
    p: &[u8],
    subject: Subject,
    progress: Progress,
    lows: &[i64],
    highs: &[i64],
    levels: &[u8],
) -> Result<Progress, Refusal>
    ensures { said result
        ≡ and_then (values_of (answers (database (map (λ x. x.now) tables.entry) words.now links.now columns.now))
        p.now subject.spid.0 subject.limits (rows_at (map (λ x. x.now) tables.entry) columns.now subject.at)) (λ values.
        answer (progress_by (checks_in lows.now highs.now levels.now) subject.limits.nbchck progress values)) }
{
    let mut xs = [0i64; MOST_MEMBERS];
    let mut ys = [0i64; MOST_MEMBERS];
    let at = subject.at;
    let pcf = pcf_at(tables, columns, at.pcf);
    let manner = manner_of(
        tables, words, links, columns, p, subject, pcf, &mut xs, &mut ys,
    );
    let plf = location_at(tables, columns, at.plf);
    check_occurrences(p, plf, pcf, &xs, &ys, lows, highs, levels, manner, progress)
}

// From these run and announced on. The checks are gathered once.
pub fn check_parameter(
    tables: [&[u8]; TABLES],
    words: &[u64],
    links: &[u16],
    columns: &[u16],
    p: &[u8],
    subject: Subject,
    start: Progress,
) -> Result<Progress, Refusal>
    ensures { said result ≡ checked_of (answers (database (map (λ x. x.now) tables.entry) words.now links.now columns.now))
        p.now subject.spid.0 subject.name subject.limits start (rows_at (map (λ x. x.now) tables.entry) columns.now subject.at) }
{
    let mut lows = [0i64; MOST_MEMBERS];
    let mut highs = [0i64; MOST_MEMBERS];
    let mut levels = [0u8; MOST_MEMBERS];
    let checks = gather_checks(
        tables,
        words,
        links,
        columns,
        p,
        subject,
        &mut lows,
        &mut highs,
        &mut levels,
    );
    check_by(
        tables,
        words,
        links,
        columns,
        p,
        subject,
        start,
        &lows,
        &highs,
        &levels[..checks],
    )
}
