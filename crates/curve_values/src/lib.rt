// The value along the curve that CURTX names, or as it was read.
#![tactic(auto)]

pub mod along;
pub mod scale;
