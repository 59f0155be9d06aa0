// What is true of the merge over the records that are lent and given back: laws alone, see proofs/.
#![tactic(auto)]
