// The speaking rate: an entry in its own right, which checks its own input and answers with an enum.

#![tactic(auto)]

mod ascending;
pub mod duration;
mod few_frames;
mod gaps;
mod order;
