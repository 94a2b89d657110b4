// An inner crate: what a move does that makes a step, or brings a body's value back.
#![tactic(auto)]

pub mod calls;
pub mod ends;
pub mod other_steps;
pub mod steps;
