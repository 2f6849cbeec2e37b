// Reasons 1 to 8 of a row's verdict, with what the row says.
#![tactic(auto)]

pub mod read;
