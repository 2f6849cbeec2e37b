// Run and announced after a reading.
#![tactic(auto)]

ghost use Rattle.std.specs.Prelude.{◌≡◌};
ghost use Rattle.announced.specs.Announced.{raised, violation, after_reading};

use severity::Severity;

// The numbers of a state that readings change.
#[derive(Clone, Copy)]
pub struct Progress {
    pub run: u8,
    pub announced: u8,
}

// A run one longer, at most 99.
fn raise(run: u8) -> u8
    ensures { result ≡ raised run }
{
    if run < 99 { run + 1 } else { 99 }
}

// After a violation that is announced as `level` from NBCHCK on.
fn violate(nbchck: u32, level: u8, progress: Progress) -> Progress
    ensures { result ≡ violation nbchck level progress }
{
    let run = raise(progress.run);
    if nbchck <= run as u32 {
        return Progress {
            run,
            announced: level,
        };
    }
    Progress {
        run,
        announced: progress.announced,
    }
}

// After a valid reading of this severity.
pub fn after_reading(nbchck: u32, severity: Severity, progress: Progress) -> Progress
    ensures { result ≡ after_reading nbchck severity progress }
{
    match severity {
        Severity::Within => Progress {
            run: 0,
            announced: 0,
        },
        Severity::Soft => violate(nbchck, 1, progress),
        Severity::Hard => violate(nbchck, 2, progress),
    }
}
