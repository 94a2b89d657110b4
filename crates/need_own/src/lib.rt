// An inner crate: what a term itself takes (document 02, card 10): its own needs in a walk over the terms of an image, and the
// rows of pieces that it charges.
#![tactic(auto)]

pub mod own;
pub mod rows;
