// Laws of truths, tests and lists that many crates cite (proofs/), and the tests that the definitions are made of (specs/).
#![tactic(auto)]
