// How far the f64 sum of a path lies from its exact sum, and what that says of the path that decoding returns (document 02, Ask 4). The exact
// sum is defined in specs/, the theorems stand under proofs/. No code.

#![tactic(auto)]
