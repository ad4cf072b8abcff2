// Evidence marks: which edges of a span are joined, and whether a syllable ends in creak. Each is an entry in its own right, which
// checks its own input and answers with a Result; document 01's number of a refusal is its `u32::from`.

#![tactic(auto)]

pub mod evidence;
pub mod joins;
mod masks;
