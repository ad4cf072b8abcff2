// Unit spans: the span of one frame of a stage, those of all its frames where its lists ascend, and the entry `tbu_spans`, which checks
// its own input and answers with a Result.

#![tactic(auto)]

pub mod bounds;
pub mod edges;
pub mod spans;
pub mod walk;
