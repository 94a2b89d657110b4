// An inner crate: the reduction of a mark, which binds its value for all matching advice; their bodies, one after another; and
// takedowns of installed advice (document 02, card 7).
#![tactic(auto)]

pub mod advice;
pub mod bind;
pub mod mark;
pub mod takedown;
