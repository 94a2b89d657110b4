// The machine over words makes the calculus's runs: the theorem vm_runs, in proofs/.
#![tactic(auto)]
