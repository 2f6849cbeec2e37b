// Whether a state takes a packet, and the state that an accepted packet leaves.
#![tactic(auto)]

pub mod step;
