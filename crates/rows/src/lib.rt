// The rows of the search on the two work areas, after `best_path` of closed.rs: the ways into a cell, how each row is filled,
// the end, and the way back through the marks. A cell's value and its mark stand in two lists, `best` and `back`, since the C interface
// lends them so (document 01).

#![tactic(auto)]

pub mod clear;
pub mod end;
pub mod fill;
pub mod inputs;
pub mod starts;
pub mod trace;
mod units;
pub mod way;
