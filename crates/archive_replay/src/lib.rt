// Tables loaded once, and the packets of a file offered to them.
#![tactic(auto)]

pub mod archive;
pub mod loaded;
pub mod say;
