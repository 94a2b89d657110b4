// An inner crate: where the children of a term stand (document 01, "Typing"), under which variables and at which domain.
#![tactic(auto)]

pub mod matches;
pub mod scope;
