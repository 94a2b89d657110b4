// An inner crate: per term, height and use count, which the scan of the records keeps as one mark (document 01, "Turned back
// at the gate", refusals 11 and 12). So no second walk over the terms is needed to accept an image.
#![tactic(auto)]

pub mod children;
pub mod marks;
pub mod uses;
