// The limit state of a parameter, and which packets are newer.
#![tactic(auto)]

pub mod state;
