// Laws of tests, numbers, lists and rules that speak of nothing of the decoder: each is stated once, under proofs/, and cited by every
// layer above. What the toolchain's library has already is cited from there. There is no code.

#![tactic(auto)]
