// A question asked of each packet of an archive, over loaded tables, and its answers added up.
#![tactic(auto)]

pub mod archive;
pub mod asking;
pub mod counting;
