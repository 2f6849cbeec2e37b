// Curves: the straight line through two points. Which points, and what is off their ends, is for the crates above.
#![tactic(auto)]

pub mod ints;
pub mod line;
