// The passes of an import over the ids of the rows: loops over arrays by row or by id, and none of them searches.
#![tactic(auto)]

pub mod counts;
pub mod groups;
pub mod holders;
mod marked;
pub mod sound;
