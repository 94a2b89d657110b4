// An inner crate: the reductions that write. The operands are values, and a step is left of the budget.
#![tactic(auto)]

pub mod calls;
pub mod stores;
