// The files that the programs read: any file as far as a buffer holds it, and the path of a table's file.
#![tactic(auto)]

pub mod arguments;
pub mod errors;
pub mod path;
pub mod source;
