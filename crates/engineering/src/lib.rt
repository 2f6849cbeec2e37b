// The engineering value of a raw one.
#![tactic(auto)]

pub mod engineer;
