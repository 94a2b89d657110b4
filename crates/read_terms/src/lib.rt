// An inner crate: what the records of an image say of its terms, types and domains: the fields of a term by its kind (its
// type, its children, the entries of a match), the descriptors of types, and the masks of domains.
#![tactic(auto)]

pub mod domains;
pub mod entries;
pub mod terms;
pub mod type_records;
pub mod types;
