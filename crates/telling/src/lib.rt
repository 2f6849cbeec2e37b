// An answer in plain numbers, as a caller in another language takes it.
#![tactic(auto)]

pub mod deliver;
pub mod tell;
pub mod words;

// The number and the place of a refusal, both 0 where there are values; and the first `count` of these,
// which are the answer's.
#[derive(Clone, Copy)]
pub struct Telling {
    pub number: u8,
    pub place: usize,
    pub count: usize,
    pub values: [i64; 8],
}
