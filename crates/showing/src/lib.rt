// What is said of the packets of a replay: one by one, or in stretches of packets with the same answer.
#![tactic(auto)]

pub mod packet_lines;
pub mod say;
pub mod stretches;
