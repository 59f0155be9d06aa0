// What the order of operations asks of its caller, shown of accepted lists: laws alone, see proofs/.
#![tactic(auto)]
