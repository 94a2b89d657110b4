// The numbers of the outcomes, which the machine keeps in a register (document 01, "A run").
use crate::Outcome;

pub const DONE: u32 = Outcome::Done as u32;

pub const SPENT: u32 = Outcome::Spent as u32;

pub const ABORTED: u32 = Outcome::Aborted as u32;

pub const FRAMES: u32 = Outcome::Frames as u32;

pub const BINDINGS: u32 = Outcome::Bindings as u32;

pub const CELLS: u32 = Outcome::Cells as u32;

pub const LABELS: u32 = Outcome::Labels as u32;

pub const ADVICE: u32 = Outcome::Advice as u32;

pub const PIECES: u32 = Outcome::Pieces as u32;

pub const LOG: u32 = Outcome::Log as u32;

// Card 9: the same three rooms of the other domains' half.
pub const OTHER_BINDINGS: u32 = Outcome::OtherBindings as u32;

pub const OTHER_CELLS: u32 = Outcome::OtherCells as u32;

pub const OTHER_PIECES: u32 = Outcome::OtherPieces as u32;
