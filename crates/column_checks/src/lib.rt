// A column by itself: reasons 4 to 7, 13 and 14.
#![tactic(auto)]

pub mod coefficient;
pub mod column;
pub mod letters;
pub mod ranges;
