// An inner crate: one turn of the machine, and turns until it halts.
#![tactic(auto)]

pub mod run;
pub mod turn;
