// IEEE 754 as the decoder uses it: range tests and conversions on bit patterns, and the total order of f32. The laws of the order
// and the operations stand in proofs/.

#![tactic(auto)]

pub mod convert;
pub mod range;
mod sign;
pub mod total_order;
