// An inner crate: from the tables of an accepted image to its code, and the run of the code.
#![tactic(auto)]

pub mod prepare;
pub mod runs;
