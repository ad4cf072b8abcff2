// What decoding promises, and the theorems about it: specs/Contract.antt, over the entry of a candidate and the units reported for a path.
// No code: the crate `decode` keeps the promise.

#![tactic(auto)]
