// An answer in words and numbers, and whether a line says it.
#![tactic(auto)]

pub mod answer;
