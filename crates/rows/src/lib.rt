// Rows: what a column of a row says, and what is kept of a row of each table.
#![tactic(auto)]

pub mod at;
pub mod letters;
pub mod records;
pub mod values;
