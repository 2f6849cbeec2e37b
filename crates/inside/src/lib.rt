// The questions of what can be seen only inside: numbers, widths, fields, lines.
#![tactic(auto)]

pub mod inner;
