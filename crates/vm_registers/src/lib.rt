// An inner crate: how an instruction ends. The machine halts, the instruction's value is complete, it goes on at a target, or
// a body is entered.
#![tactic(auto)]

pub mod ends;
pub mod pieces;
pub mod pools;
pub mod regs;
