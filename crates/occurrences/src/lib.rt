// The occurrences of a parameter in a packet, checked in order.
#![tactic(auto)]

ghost use Rattle.std.specs.Prelude.{◌≡◌};
ghost use Rattle.rows.specs.declared.records.PlfRow as declared;
ghost use Rattle.outcomes.specs.Refusals.{said};
ghost use Rattle.outcomes.specs.Values.{value_of};
ghost use Rattle.raw_values.specs.RawValues.{raw_of, location_of};
ghost use Rattle.curve_values.specs.Scale.{on_scale, scale_in};
ghost use Rattle.severity.specs.Checks.{checks_in, severity_in};
ghost use Rattle.occurrences.specs.Values.{integer_in};
ghost use Rattle.occurrences.specs.Progress.{checked_by};
ghost use Rattle.occurrences.specs.Pass.{after_refusal, after_value, ended};

use announced::{Progress, after_reading};
use curve_values::scale::{Scale, value_on};
use outcomes::{Refusal, Value, number_of};
use raw_values::place::Location;
use raw_values::raw_of;
use rows::records::PcfRow;
use severity::severity_in;

// What the occurrences so far made of run and announced, and whether one is off its curve or out of range.
#[derive(Clone, Copy)]
pub struct Pass {
    pub progress: Progress,
    pub off: bool,
    pub beyond: bool,
}

// How readings are checked: NBCHCK, whether they are valid, and how the value comes from the raw one.
#[derive(Clone, Copy)]
pub struct Manner {
    pub nbchck: u32,
    pub valid: bool,
    pub scale: Scale,
}

fn integer_in(value: Value) -> Result<i64, Refusal>
    ensures { said result ≡ integer_in (value_of value) }
{
    match value {
        Value::Number(v) => Ok(v),
        Value::Part(from, bytes) => Err(Refusal::NoPlfRow),
        Value::Bits(pattern, width) => Err(Refusal::NoPlfRow),
    }
}

// After a value that is refused by this number.
fn after_refusal(number: u8, pass: Pass) -> Pass
    ensures { result ≡ after_refusal number pass }
{
    let progress = pass.progress;
    if number == 30 {
        return Pass {
            progress,
            off: true,
            beyond: pass.beyond,
        };
    }
    if number == 31 {
        return Pass {
            progress,
            off: pass.off,
            beyond: true,
        };
    }
    pass
}

// A valid reading, checked.
fn check_value(
    scale: Scale,
    xs: &[i64],
    ys: &[i64],
    lows: &[i64],
    highs: &[i64],
    levels: &[u8],
    nbchck: u32,
    raw: i64,
    pass: Pass,
) -> Pass
    ensures { result ≡ after_value nbchck (severity_in (checks_in lows.now highs.now levels.now))
        (on_scale (scale_in scale xs.now ys.now) raw) pass }
{
    let progress = pass.progress;
    match value_on(scale, xs, ys, raw) {
        Ok(v) => Pass {
            progress: after_reading(nbchck, severity_in(lows, highs, levels, v), progress),
            off: pass.off,
            beyond: pass.beyond,
        },
        Err(refusal) => after_refusal(number_of(refusal), pass),
    }
}

// 30 before 31.
fn end_pass(pass: Pass) -> Result<Progress, Refusal>
    ensures { said result ≡ ended pass }
{
    if pass.off {
        return Err(Refusal::OffCurve);
    }
    if pass.beyond {
        return Err(Refusal::OutOfRange);
    }
    Ok(pass.progress)
}

// Run and announced after all occurrences, by any plf row that locates the parameter here, and its pcf row.
// A field that leaves the packet is refused wherever it stands, valid or not.
pub fn check_occurrences(
    p: &[u8],
    location: Location,
    pcf: PcfRow,
    xs: &[i64],
    ys: &[i64],
    lows: &[i64],
    highs: &[i64],
    levels: &[u8],
    manner: Manner,
    progress: Progress,
) -> Result<Progress, Refusal>
    ensures { (plf : declared.PlfRow) → location ≡ location_of plf → said result
        ≡ checked_by (raw_of p.now plf pcf) plf.nbocc
        (scale_in manner.scale xs.now ys.now) manner.valid
        (checks_in lows.now highs.now levels.now) manner.nbchck progress }
{
    let nbocc = location.nbocc;
    let nbchck = manner.nbchck;
    let valid = manner.valid;
    let scale = manner.scale;
    let mut pass = Pass {
        progress,
        off: false,
        beyond: false,
    };
    for k in 0..nbocc as usize {
        let value = raw_of(p, location, pcf, k)?;
        let raw = integer_in(value)?;
        if valid {
            pass = check_value(scale, xs, ys, lows, highs, levels, nbchck, raw, pass);
        }
    }
    end_pass(pass)
}
