// Images with the same records by their known fields (document 02, card 1): definitions in specs/; that they get the same
// verdict, but for places, and have the same program in proofs/.
#![tactic(auto)]
