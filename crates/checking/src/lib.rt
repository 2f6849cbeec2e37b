// A parameter in a packet, checked.
#![tactic(auto)]

mod checks;
pub mod parameter;
