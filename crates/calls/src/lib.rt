// The calls with tables and a packet: which packet it is, what it says of a parameter, its engineering value,
// and a limit step.
// Each loads the tables first, in `ask`, and promises what its definition says of their good rows.
#![tactic(auto)]

mod ask;
pub mod engineer;
pub mod extract;
pub mod identify;
pub mod limit_step;
