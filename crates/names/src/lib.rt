// What the names of a row say: reason 11, where it is marked which rows are good,
// and which rows of a VALID chain are firm.
#![tactic(auto)]

mod finals;
mod firm;

pub use finals::final_rows;
pub use firm::firm_rows;
