// The closure machine of the calculus: definitions in specs/, its theorem and the laws of an engine's loop in proofs/.
#![tactic(auto)]
