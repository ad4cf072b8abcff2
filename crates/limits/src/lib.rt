// The numbers of document 01: what an edition allows, what the code has room for, what every edition shares, and the
// refusals.

#![tactic(auto)]

pub mod capacity;
pub mod common;
pub mod edition;
pub mod refusal;
