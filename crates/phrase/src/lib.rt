// What a phrase record means, apart from its bytes: see specs/Phrase.antt. The code of this layer is the
// three cost figures, which search and scoring pass around together.

#![tactic(auto)]

pub mod costs;
