// The conditions that a row meets, each by its weight.
ghost use Rattle.std.specs.Prelude.{◌≡◌};
ghost use Rattle.verdicts.specs.Facts.{locatable, numeric, pcf_facts};
ghost use Rattle.manners.specs.Manners.{mark, marks_of};

use contradictions::is_whole;
use rows::letters::{Category, Nature};
use rows::records::PcfRow;

// Of a caf row: that it is there, and that it is a curve through points.
pub const CAF_MARKS: u8 = 17;

fn mark(met: bool, weight: u8) -> u8
    ensures { result ≡ mark met weight }
{
    if met {
        return weight;
    }
    0
}

fn is_locatable(row: PcfRow) -> bool
    ensures { result ≡ (pcf_facts row).meets locatable }
{
    let natur = row.natur;
    match natur {
        Nature::Raw => true,
        Nature::Dynamic => false,
        Nature::Expression => false,
        Nature::HardCoded => false,
        Nature::Saved => false,
        Nature::Constant => true,
    }
}

fn is_numeric(row: PcfRow) -> bool
    ensures { result ≡ (pcf_facts row).meets numeric }
{
    if is_whole(row.ptc) {
        let categ = row.categ;
        return match categ {
            Category::Numeric => true,
            Category::Status => false,
            Category::Text => false,
        };
    }
    false
}

pub fn pcf_marks(row: PcfRow) -> u8
    ensures { result ≡ marks_of (pcf_facts row).meets }
{
    let locatable = mark(is_locatable(row), 2);
    let whole = mark(is_whole(row.ptc), 4);
    let numeric = mark(is_numeric(row), 8);
    1 + locatable + whole + numeric
}
