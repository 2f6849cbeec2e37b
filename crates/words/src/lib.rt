// What the programs say: reasons and refusals in words.
#![tactic(auto)]

pub mod reasons;
pub mod refusals;
pub mod say;
