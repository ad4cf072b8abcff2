// The path that the cell rule keeps, after `best_path` and `search` of closed.rs.

#![tactic(auto)]

pub mod best_path;
pub mod fill;
pub mod path;
pub mod search;
pub mod task;
