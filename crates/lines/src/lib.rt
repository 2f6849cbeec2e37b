// A table's lines, a line's columns, and names.
#![tactic(auto)]

pub mod columns;
pub mod walk;
