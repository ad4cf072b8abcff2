// Decoding: from a phrase record to its result words. What it promises is in the crate `decoding`.

#![tactic(auto)]

pub mod decode;
pub mod decoder;
pub mod entry;
pub mod lay;
pub mod missed;
pub mod plan;
pub mod report;
