// What a run will need, worked out from the program (document 02, card 10): definitions in specs/, theorems in proofs/.
#![tactic(auto)]
