// An inner crate: the refusals 4 to 7 of one record (document 01, "Turned back at the gate"), and the marks of a term that passes
// them.
#![tactic(auto)]

pub mod faults;
pub mod ranges;
pub mod terms;
