// What tables that are loaded say of a parameter in a packet: its raw value and its engineering value.
#![tactic(auto)]

pub mod engineer;
pub mod extract;
