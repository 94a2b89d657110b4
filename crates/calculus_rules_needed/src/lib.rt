// Each domain rule is needed for demand 3: for each a pair of programs, in proofs/.
#![tactic(auto)]
