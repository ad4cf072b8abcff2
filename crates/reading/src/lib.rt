// Readers of an accepted record.

#![tactic(auto)]

pub mod accepted;
pub mod read;
