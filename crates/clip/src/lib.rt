// The spans that are reported for the units of a path, after `clip_unanchored` of closed.rs.

#![tactic(auto)]

pub mod clip;
