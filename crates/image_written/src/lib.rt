// Images that are written (document 02, cards 11 to 13): definitions in specs/; that they are accepted and have the program
// that they are written from, in proofs/.
#![tactic(auto)]
