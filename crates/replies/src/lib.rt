// What the library says of an import and of a packet, as an answer in words and numbers.
#![tactic(auto)]

pub mod import_replies;
pub mod packet_replies;
