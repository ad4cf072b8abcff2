// The theory of paths: definitions under specs/, theorems under proofs/. The code of this layer is the two
// enums that the definitions and the search share, with document 01's number for a pass.

#![tactic(auto)]

pub mod passes;
