// What a whole call answers and leaves: the definition in specs/, and here the struct that answers.
#![tactic(auto)]

use calculus::LEAF_LIMIT;
use report::{Ending, Slot};
use verdict::Verdict;

// The answer of a call (document 01, "A run"): the outcome enum with the result's leaves beside it. Of a call that is
// refused the verdict alone says something: it has no outcome, and its numbers are 0.
#[derive(Clone, Copy)]
pub struct Answer {
    pub verdict: Verdict,
    pub ending: Ending,
    pub steps: u32,
    // bytes written
    pub log: usize,
    pub report: usize,
    // the result's leaves, if done
    pub count: usize,
    pub leaves: [Slot; LEAF_LIMIT],
}
