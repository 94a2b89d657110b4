// The numbers of the kinds of types and of terms (document 01, "The image").
// Kept: (d) a kind is read from the image as a number, is an index into the table of kinds, and is tested as the number that
// stands in a record; an enum of them would be turned back into that number at each of these uses.
pub const UNIT_TYPE: u16 = 16;

pub const TRUTH_TYPE: u16 = 17;

pub const NUMBER_TYPE: u16 = 18;

pub const PAIR_TYPE: u16 = 19;

pub const FUNCTION_TYPE: u16 = 20;

pub const REFERENCE_TYPE: u16 = 21;

pub const LABEL_TYPE: u16 = 22;

pub const POINTCUT_TYPE: u16 = 23;

pub const ADVICE_TYPE: u16 = 24;

pub const OBJECT_TYPE: u16 = 25;

pub const STACK_TYPE: u16 = 26;

pub const UNIT: u16 = 32;

pub const TRUTH: u16 = 33;

pub const NUMBER: u16 = 34;

pub const VARIABLE: u16 = 35;

pub const SEQUENCE: u16 = 36;

pub const PRINT: u16 = 37;

pub const CHOICE: u16 = 38;

pub const PAIR: u16 = 39;

pub const SPLIT: u16 = 40;

pub const FUNCTION: u16 = 41;

pub const APPLY: u16 = 42;

pub const ARITHMETIC: u16 = 43;

pub const NEW_LABEL: u16 = 44;

pub const MARK: u16 = 45;

pub const POINTCUT: u16 = 46;

pub const ADVICE: u16 = 47;

pub const INSTALL: u16 = 48;

pub const NEW_CELL: u16 = 49;

pub const READ: u16 = 50;

pub const STORE: u16 = 51;

pub const LOWER: u16 = 52;

pub const ABORT: u16 = 53;

pub const OBJECT: u16 = 54;

pub const CALL: u16 = 55;

pub const STACK: u16 = 56;

pub const KEEP: u16 = 57;

pub const MATCH: u16 = 58;

pub const TAKEDOWN: u16 = 59;

pub const FRAME_BYTE: u16 = 60;
