// An inner crate: the children of a pointcut, worked out one after another. Children that are atoms are taken in place; each
// other one is a body of its own.
#![tactic(auto)]

pub mod children;
pub mod entry;
pub mod labels;

// The children of a pointcut that are done, and the digits of their labels.
#[derive(Clone, Copy)]
pub struct Done {
    pub count: usize,
    pub digits: u64,
}

// Where the children of a pointcut go on: its instruction and environment, the room of its body, and the children that are
// done.
#[derive(Clone, Copy)]
pub struct Part {
    pub pc: usize,
    pub env: usize,
    pub frames: usize,
    pub done: Done,
}
