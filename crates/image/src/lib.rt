// The image: its bytes, kinds, records and program in specs/, their laws in proofs/; and here the limits and the refusals
// that the validator, the engine and the writers share.
#![tactic(auto)]

ghost use Rattle.std.specs.Prelude.{◌≡◌};
ghost use Rattle.image.specs.Refusals.{refusal_number};

use base_bytes::{BESIDE_COUNT, WORD_COUNT};
use calculus::{CELL_LIMIT, LEAF_LIMIT};

// The limits of an image (document 01, "The image", limits), by the names of specs/Limits.antt. The bytes of an image.
pub const IMAGE_LIMIT: usize = 16384;

pub const DOMAIN_LIMIT: usize = 16;

pub const TYPE_LIMIT: usize = 128;

pub const TERM_LIMIT: usize = 1024;

// The root has depth 1.
pub const DEPTH_LIMIT: usize = 64;

// The labels of a pointcut.
pub const POINTCUT_LIMIT: usize = 8;

// The methods of an object (card 3).
pub const METHOD_LIMIT: usize = 8;

// The entries of a match (card 6).
pub const ENTRY_LIMIT: usize = 8;

// The operations of arithmetic: plus, minus, less, equal.
pub const OPERATION_COUNT: usize = 4;

// The published length of the work area, 35,857 bytes: the words, of 8 bytes, and the single bytes of the machine's memory
// (document 01, "Turned back at the gate").
pub const WORK_LENGTH: usize = 8 * WORD_COUNT + BESIDE_COUNT;

// The length that every report fits in, 17,994 bytes: a head, the result's leaves, and the cells of both halves (card 9), each
// with a head and its leaves.
pub const REPORT_LENGTH: usize = 10 + 8 * LEAF_LIMIT + 2 * CELL_LIMIT * (6 + 8 * LEAF_LIMIT);

// Why an image is refused (document 01, "Turned back at the gate").
#[derive(Clone, Copy)]
pub enum Refusal {
    ImageTooLong = 1,
    BrokenRecord,
    UnknownKind,
    WrongLength,
    SectionOrder,
    TooManyRecords,
    FieldRange,
    RepeatedType,
    EmptySection,
    DomainOrder,
    UseCount,
    TooDeep,
    UnboundVariable,
    TypeRule,
    DomainRule,
    RootNotPlain,
    ShortWorkArea,
    ShortReport,
}

// The number of a refusal (document 01, "Turned back at the gate").
impl From<Refusal> for u16 {
    ghost from_gives = { λ why n. n ≡ refusal_number why };

    fn from(why: Refusal) -> u16 {
        why as u16
    }
}

// A refusal, and its place in the image: an offset, or 0 where the refusal is of no place in it.
#[derive(Clone, Copy)]
pub struct Refused {
    pub why: Refusal,
    pub place: usize,
}
