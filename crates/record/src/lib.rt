// The phrase record: what its bytes mean and when they are refused, as definitions under specs/ and laws under proofs/. The
// code of this layer is the types that those share with the code above, and the reading of little-endian numbers.

#![tactic(auto)]

pub mod bytes;
pub mod format;
pub mod layout;
pub mod read;
pub mod trailer;
