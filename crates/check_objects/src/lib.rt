// An inner crate: the rules of objects and calls (document 02, card 3), of stacks, keeps and matches (card 6).
#![tactic(auto)]

pub mod objects;
pub mod stacks;
