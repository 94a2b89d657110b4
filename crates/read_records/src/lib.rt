// An inner crate: how the validator reads an image. The 16-bit numbers of its bytes, the numbers of its domains, types and
// terms, the table of kinds, the record reader, and the fields of a record.
#![tactic(auto)]

pub mod fields;
pub mod kinds;
pub mod numbers;
pub mod reader;
pub mod table;
pub mod words;
