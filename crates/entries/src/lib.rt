// Result entries: their words, and their ranking in the output.

#![tactic(auto)]

pub mod ranking;
pub mod words;
