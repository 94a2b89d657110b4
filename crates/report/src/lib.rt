// The bytes of log and report: what they are and how they are read back in specs/, that reading gives back what was
// written in proofs/; and here the functions that write them into lent slices.
#![tactic(auto)]

pub mod cells;
pub mod fixed;
pub mod leaves;
pub mod numbers;

use calculus::{Leaf, Outcome};

// How a run ended: with one of document 01's outcomes, or with none. A call that is refused makes no run and has none; so
// has a run that is stuck, which no accepted image's is.
#[derive(Clone, Copy)]
pub enum Ending {
    NoOutcome,
    Ended(Outcome),
}

// A leaf of a result; eight of these stand beside a count.
#[derive(Clone, Copy)]
pub struct Slot {
    pub leaf: Leaf,
}
