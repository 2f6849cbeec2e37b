// What a row says of keys, as symbols: records of it, put together part by part, and what single columns say.
#![tactic(auto)]

pub mod columns;
pub mod parts;
pub mod records;
