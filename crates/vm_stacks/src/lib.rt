// An inner crate: stacks and keeps (card 6).
#![tactic(auto)]

pub mod keeps;
pub mod stacks;
