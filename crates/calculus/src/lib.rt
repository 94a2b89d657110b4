// The calculus of harmless advice: definitions in specs/, laws and examples in proofs/; and here what the engine shares
// with it: the limits of a run, the enums of the outcomes and of the leaves, the numbers of the outcomes.
#![tactic(auto)]

pub mod outcomes;

ghost use Rattle.std.specs.Prelude.{◌≡◌};
ghost use Rattle.calculus.specs.Report.{outcome_number};

// The limits of a run (document 01, "A run"), by the names of specs/Limits.antt. Unfinished terms around the next redex.
pub const FRAME_LIMIT: usize = 512;

// Bindings, cells and pieces of one half, domain 0's or the other domains' (card 9).
pub const BINDING_LIMIT: usize = 1024;

pub const CELL_LIMIT: usize = 128;

pub const PIECE_LIMIT: usize = 256;

pub const LABEL_LIMIT: usize = 64;

// Installed advice.
pub const ADVICE_LIMIT: usize = 64;

// The bytes of one log record.
pub const LOG_RECORD_LENGTH: usize = 10;

// The leaves of a plain type (document 01, "The image", limits).
pub const LEAF_LIMIT: usize = 8;

// Numbers have 32 bits: so many patterns, of which those from the sign bit on are negative.
pub const WORD_SIZE: u64 = 4294967296;

pub const SIGN_BIT: u64 = 2147483648;

// How a run ends (document 01, "A run"; the last three are card 9's).
#[derive(Clone, Copy, PartialEq, Eq)]
pub enum Outcome {
    Done = 0,
    Spent,
    Aborted,
    Frames,
    Bindings,
    Cells,
    Labels,
    Advice,
    Pieces,
    Log,
    OtherBindings,
    OtherCells,
    OtherPieces,
}

// The number of an outcome in the report (document 01, "The report").
impl From<Outcome> for u16 {
    ghost from_gives = { λ o n. n ≡ outcome_number o };

    fn from(o: Outcome) -> u16 {
        o as u16
    }
}

// A leaf of a result or of a cell; a number is its bit pattern.
#[derive(Clone, Copy)]
pub enum Leaf {
    Unit,
    Truth(bool),
    Number(u32),
}
