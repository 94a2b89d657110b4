// The code that both passes make is that of the program, and the machine's run of an accepted image says what the calculus's run of
// its program says: definitions in specs/, theorems in proofs/.
#![tactic(auto)]
