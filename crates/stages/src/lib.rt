// The tables of a stage that the search reads, made once for a record and stage, after `Stage` and `Filler` of closed.rs.

#![tactic(auto)]

pub mod anchors;
pub mod by_strictness;
mod counts;
pub mod filler;
pub mod ranges;
pub mod search;
pub mod since;
pub mod stage_parts;
pub mod stage_tables;
pub mod tables;
