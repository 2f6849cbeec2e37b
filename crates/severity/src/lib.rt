// The severity of a value by the checks that apply.
#![tactic(auto)]

ghost use Rattle.std.specs.Prelude.{◌≡◌, pos, get_or};
ghost use Rattle.std.specs.Int.Signed.{lt_z};
ghost use Rattle.severity.specs.Violations.{is_violated};
ghost use Rattle.severity.specs.Levels.{level_of};
ghost use Rattle.severity.specs.Checks.{checks_in, severity_in};

use rows::letters::CheckType;

// What a reading's checks say of it.
#[derive(Clone, Copy)]
pub enum Severity {
    Within,
    Soft,
    Hard,
}

// Whether the value is below LVALU or above HVALU.
pub fn is_violated(lvalu: i64, hvalu: i64, value: i64) -> bool
    ensures { result ≡ is_violated lvalu hvalu value }
{
    if value < lvalu {
        return true;
    }
    hvalu < value
}

// What a check announces: 2 an H check, 1 an S one, 0 any other.
pub fn level_of(check: CheckType) -> u8
    ensures { result ≡ level_of check }
{
    match check {
        CheckType::Soft => 1,
        CheckType::Hard => 2,
        CheckType::Delta => 0,
        CheckType::Consistency => 0,
        CheckType::Event => 0,
    }
}

// The element i of a list, 0 past its end.
fn limit_at(limits: &[i64], i: usize) -> i64
    ensures { result ≡ get_or limits.now i (pos 0) }
{
    if i < limits.len() { limits[i] } else { 0 }
}

// Hard before soft. There are as many checks as levels: LVALU, HVALU,
// and the level 2 for an H check and 1 for an S one.
pub fn severity_in(lows: &[i64], highs: &[i64], levels: &[u8], value: i64) -> Severity
    ensures { result ≡ severity_in (checks_in lows.now highs.now levels.now) value }
{
    let mut soft = false;
    for i in 0..levels.len() {
        let level = levels[i];
        if is_violated(limit_at(lows, i), limit_at(highs, i), value) {
            if level == 2 {
                return Severity::Hard;
            }
            if level == 1 {
                soft = true;
            }
        }
    }
    if soft {
        Severity::Soft
    } else {
        Severity::Within
    }
}
