// A program stripped of its watches (document 02, card 13): definitions in specs/, theorems in proofs/.
#![tactic(auto)]
