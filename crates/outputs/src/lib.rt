// What is true of the outputs of a list beside each other, from rooms to rooms: laws alone, see proofs/.
#![tactic(auto)]
