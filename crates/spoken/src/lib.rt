// What a line says of an answer: its words, numbers and cells, letter by letter.
#![tactic(auto)]

pub mod cells;
pub mod decimal;
pub mod fit;
pub mod spelling;
