// Noninterference of the calculus: what is compared of two runs in specs/, the theorem in proofs/.
#![tactic(auto)]
