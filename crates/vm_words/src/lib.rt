// An inner crate: the words of code and of values, numbers of 64 bits, and what is read off them.
#![tactic(auto)]

pub mod classes;
pub mod code;
pub mod terms;
pub mod value;
