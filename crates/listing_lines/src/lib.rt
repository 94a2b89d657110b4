// The lines of what `watch` prints (document 01, "Bench sheet"), each put into a lent buffer: numbers and words as text, the lines of
// a log's records, of how a run ended and of a report's cells. A function puts as much of its text as fits and answers the
// offset past it.
#![tactic(auto)]

pub mod endings;
mod leaves;
pub mod lines;
pub mod offsets;
pub mod text;
