// An inner crate: what the functions of the library for other languages answer, as one number, the numbers of a forecast in lent
// places, and the calls of a recording.
#![tactic(auto)]

pub mod forecasts;
pub mod frames;
pub mod numbers;
