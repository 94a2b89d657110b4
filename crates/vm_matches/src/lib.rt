// An inner crate: matches (card 6): their operands, the entries that they look at, and the branch that is taken.
#![tactic(auto)]

pub mod bindings;
pub mod entries;
pub mod looks;
pub mod matches;
pub mod operands;

// A match under way: its stack, how many entries were looked at, what is behind them in the stack, and whether they all fit.
// Kept: `fits` is no flag for a value: the other fields hold values that are used whether it is true or not.
#[derive(Clone, Copy)]
pub struct Progress {
    pub stack: u64,
    pub next: usize,
    pub rest: u64,
    pub fits: bool,
}

// Bindings that a match makes: how many there are, and the innermost.
#[derive(Clone, Copy)]
pub struct Chain {
    pub count: usize,
    pub env: usize,
}
