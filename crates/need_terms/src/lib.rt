// An inner crate: what the fields of a term's record tell the walks of card 10 (document 02). Each function takes the number of
// the kind, from the record's head, and the fields as the part of the image that the reader lent. And refusal 19: the lowest term that
// may not stand where it does.
#![tactic(auto)]

pub mod class;

ghost use Rattle.std.specs.Prelude.{◌≡◌, ◌≤◌, ◌<◌, length, get_or};
ghost use Rattle.image.specs.Kinds.{TermKind, term_row};
ghost use Rattle.read_records.specs.Heads.{field_in};
ghost use Rattle.read_terms.specs.Fields.{children_in};
ghost use Rattle.need_terms.specs.GivenToChildren.{Part, domain_in, variables_in, child_bound};

use read_records::fields::field_as;
use read_records::kinds;
use read_records::numbers::{DomainNo, TermNo};
use read_terms::entries::binds_rest;
use read_terms::terms::{child_count, child_of, lead_of, own_descriptor};
use read_terms::types::domain_of;

// The field of a lower's domain: it stands behind the type.
const LOWERED: usize = 1;

// Kept: a kind is the number that stands in a record's head (`term_row`, which the definition of an image reads).

// Child j.
pub fn child_in(kind: u16, fields: &[u8], j: usize) -> TermNo
    requires { (P : Part kind fields.now) × (j < length (children_in fields.now P.kind_of_term)) }
    ensures { (k : TermKind) → kind ≡ (term_row k).number → result.0 ≡ get_or (children_in fields.now k) j 0 }
{
    child_of(kind, fields, lead_of(kind), j)
}

// The domain that a term gives to a body: an advice its type's, a lower the one in its field.
pub fn part_domain(kind: u16, fields: &[u8], descriptors: &[u32]) -> DomainNo
    requires { Part kind fields.now × (field_in fields.now 0 < length descriptors.now) }
    ensures { (k : TermKind) → kind ≡ (term_row k).number → result.0 ≡ domain_in fields.now descriptors.now k }
{
    if kind == kinds::ADVICE {
        domain_of(own_descriptor(descriptors, fields))
    } else if kind == kinds::LOWER {
        field_as(fields, LOWERED)
    } else {
        DomainNo(0)
    }
}

// How many variables the first branch of a match binds: one for each pointcut, and one for the rest of the stack.
pub fn branch_variables(kind: u16, fields: &[u8]) -> u32
    requires { Part kind fields.now }
    ensures { ((k : TermKind) → kind ≡ (term_row k).number → result ≡ variables_in fields.now k) × (result ≤ child_bound) }
{
    if kind == kinds::MATCH {
        let k = child_count(kind, fields);
        (k - 3) as u32 + u32::from(binds_rest(fields))
    } else {
        0
    }
}
