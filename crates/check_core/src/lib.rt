// An inner crate: the rules of document 01's terms ("Typing"): of those that compute, of cells and of watches; and of the takedown
// (document 02, card 7). In the comments here, one domain is below another if it is at or below it (≤).
#![tactic(auto)]

pub mod cells;
pub mod computing;
pub mod watches;
