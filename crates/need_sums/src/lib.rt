// An inner crate: the numbers of card 10 (document 02) as a walk over the terms of an image works them out: their sums, where a
// term stands in the walk, and what a kind of term asks of its children.
#![tactic(auto)]

pub mod positions;
pub mod shapes;
pub mod sums;
