// An inner crate: the check over lent tables (document 01, "Turned back at the gate"): refusals 2 to 16 of an image, and 1 to
// 18 of a call. The engine then uses the tables of an accepted image.
#![tactic(auto)]

pub mod call;
pub mod examine;
