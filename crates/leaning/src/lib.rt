// A row that isn't good in a line: its verdict in words, and what it leans on.
#![tactic(auto)]

mod leans;
mod places;
mod verdict;
mod wrong;

pub use verdict::say_row;
