// A limit step: the state of a parameter's limit checks after a packet.
#![tactic(auto)]

pub mod step;
