// An inner crate: refusals 14 and 15 at a term that may have children (document 01, "Typing"): the rule of its kind.
#![tactic(auto)]

pub mod rule;
