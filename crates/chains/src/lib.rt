// Chains of rows: each row has at most one next row. Whether a chain comes back to its first row,
// and whether all its rows are firm.
#![tactic(auto)]

mod circles;
mod ends;
mod firm;

pub use circles::mark_circles;
pub use firm::mark_firm;
