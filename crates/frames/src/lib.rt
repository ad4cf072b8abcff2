// What the entries beside decoding share: lists of frames, spans, and what an entry takes at most.

#![tactic(auto)]

pub mod list;
pub mod ordered;
pub mod sizes;
pub mod span;
pub mod stage;
pub mod unit;
