// A line compared with an answer, and a difference told.
#![tactic(auto)]

pub mod compare;
pub mod difference;
