// An inner crate: the machine's tables in the lent work area.
#![tactic(auto)]

pub mod bindings;
pub mod cells;
pub mod kept;
pub mod labels;
pub mod pieces;
pub mod slots;
pub mod words;
