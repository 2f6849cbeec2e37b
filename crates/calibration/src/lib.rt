// Calibration over plain arrays of numbers: the nearest of several numbers to a value, and the value of a curve.
#![tactic(auto)]

pub mod curve;
mod ints;
pub mod nearest;
