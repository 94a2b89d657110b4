// An inner crate: the answer and the report of a machine that halted, from its registers and its tables.
#![tactic(auto)]

pub mod cells;
pub mod leaves;
pub mod reports;

use calculus::LEAF_LIMIT;
use report::Slot;

// Leaves in eight slots; those that are left over hold unit.
// Kept: no heap; and eight slots in an array are a form that the pages in docs/ name, from which the report is written.
#[derive(Clone, Copy)]
pub struct Gathered {
    pub count: usize,
    pub slots: [Slot; LEAF_LIMIT],
}
