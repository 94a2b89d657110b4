// An inner crate: refusal 8 of one type, "type equal to an earlier one" (document 01, "Turned back at the gate"). Types are
// told apart by their keys; only types with equal keys are compared field by field.
#![tactic(auto)]

pub mod keys;
pub mod new_types;
