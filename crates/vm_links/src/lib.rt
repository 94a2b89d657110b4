// An inner crate: the machine's links on the bytes of the work area (document 02, card 4). Definitions in specs/, the card's
// statements in proofs/.
#![tactic(auto)]
