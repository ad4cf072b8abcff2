// What document 01 lists under "Proved as a group", and other theorems about decoding that nothing builds on, so that a crate which they
// take their examples from is changed without proving `decoding` again. They stand under proofs/. No code.

#![tactic(auto)]
