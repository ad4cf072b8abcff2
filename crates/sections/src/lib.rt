// Refusals 1 to 4, and where the sections of a record stand: what its length and its trailer say.

#![tactic(auto)]

pub mod layout;
pub mod size;
pub mod trailer;
