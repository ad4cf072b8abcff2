// What is made once for an accepted record and stage, for the search of every candidate.

#![tactic(auto)]

pub mod stage;
pub mod stage_read;
