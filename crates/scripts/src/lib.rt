// What a line of a vector file spells: its word, the bytes and the numbers of its text.
#![tactic(auto)]

pub mod operands;
pub mod verb;
