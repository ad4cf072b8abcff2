// How many units would have fitted (document 02, Ask 1): the largest unit count of the paths that a stage and a strictness admit.

#![tactic(auto)]

pub mod most;
mod reach;
