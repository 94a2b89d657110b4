// The demands, about accepted images: definitions in specs/, theorems in proofs/.
#![tactic(auto)]
