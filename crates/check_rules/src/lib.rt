// An inner crate: what a rule of typing answers (document 01, "Typing"): the verdict of a rule at one term, and refusals 13 and
// 14 at a leaf.
#![tactic(auto)]

pub mod judge;
pub mod leaf;
