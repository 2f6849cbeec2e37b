// Fields of a packet: bits read as an unsigned or a signed number. Proved once over the width.
#![tactic(auto)]

mod bits;
pub mod field;
pub mod sign;
