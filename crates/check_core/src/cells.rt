// The rules of cells and of lower (document 01, "Typing").
ghost use Rattle.std.specs.Prelude.{◌≡◌, ℕ, List};
ghost use Rattle.image.specs.Kinds.{TermKind};
ghost use Rattle.read_terms.specs.Lent.{Lent, Masks};
ghost use Rattle.check_rules.specs.Rules.{rule_in};
ghost use Rattle.read_terms.specs.Fields.{Typed, AtField};
ghost use Rattle.check_rules.specs.Judged.{judged};

use check_rules::judge::judge;
use image::DOMAIN_LIMIT;
use read_records::kinds::{REFERENCE_TYPE, UNIT_TYPE};
use read_records::numbers::DomainNo;
use read_terms::domains::leq;
use read_terms::terms::{
    descriptor_at_field, other_field, own_descriptor, own_type, type_at_field,
};
use read_terms::types::{first_type, is_kind, same_type, second_domain};
use verdict::Verdict;

// A new cell holds its child, at a domain that is below the current one.
pub fn check_new_cell(
    image: &[u8],
    masks: &[u16; DOMAIN_LIMIT],
    terms: &[u16],
    descriptors: &[u32],
    at: usize,
    fields: &[u8],
    c: DomainNo,
) -> Verdict
    requires { Lent image.now terms.now descriptors.now × Typed image.now fields.now × AtField image.now fields.now 1 × Masks image.now masks.now }
    ensures { (Γ : List ℕ) → result ≡ judged at (rule_in image.now fields.now TermKind.new_cell (record { context = Γ; dom = c.0 })) }
{
    let own = own_descriptor(descriptors, fields);
    let first = type_at_field(image, terms, fields, 1);
    judge(
        at,
        is_kind(own, REFERENCE_TYPE) && same_type(first_type(own), first),
        leq(masks, second_domain(own), c),
    )
}

// Read gives what a cell holds, at a domain that the current one is below.
pub fn check_read(
    image: &[u8],
    masks: &[u16; DOMAIN_LIMIT],
    terms: &[u16],
    descriptors: &[u32],
    at: usize,
    fields: &[u8],
    c: DomainNo,
) -> Verdict
    requires { Lent image.now terms.now descriptors.now × Typed image.now fields.now × AtField image.now fields.now 1 × Masks image.now masks.now }
    ensures { (Γ : List ℕ) → result ≡ judged at (rule_in image.now fields.now TermKind.read (record { context = Γ; dom = c.0 })) }
{
    let t = own_type(fields);
    let first = descriptor_at_field(image, terms, descriptors, fields, 1);
    judge(
        at,
        is_kind(first, REFERENCE_TYPE) && same_type(first_type(first), t),
        leq(masks, c, second_domain(first)),
    )
}

// Store takes a cell and what it holds, at a domain that is below the current one, and gives unit.
pub fn check_store(
    image: &[u8],
    masks: &[u16; DOMAIN_LIMIT],
    terms: &[u16],
    descriptors: &[u32],
    at: usize,
    fields: &[u8],
    c: DomainNo,
) -> Verdict
    requires { Lent image.now terms.now descriptors.now × Typed image.now fields.now × AtField image.now fields.now 1 × AtField image.now fields.now 2 × Masks image.now masks.now }
    ensures { (Γ : List ℕ) → result ≡ judged at (rule_in image.now fields.now TermKind.store (record { context = Γ; dom = c.0 })) }
{
    let own = own_descriptor(descriptors, fields);
    let first = descriptor_at_field(image, terms, descriptors, fields, 1);
    let second = type_at_field(image, terms, fields, 2);
    judge(
        at,
        is_kind(own, UNIT_TYPE)
            && is_kind(first, REFERENCE_TYPE)
            && same_type(first_type(first), second),
        leq(masks, second_domain(first), c),
    )
}

// Lower: a unit, at a domain in its field, which is below the current one; its child stands behind that field.
pub fn check_lower(
    image: &[u8],
    masks: &[u16; DOMAIN_LIMIT],
    terms: &[u16],
    descriptors: &[u32],
    at: usize,
    fields: &[u8],
    c: DomainNo,
) -> Verdict
    requires { Lent image.now terms.now descriptors.now × Typed image.now fields.now × AtField image.now fields.now 2 × Masks image.now masks.now }
    ensures { (Γ : List ℕ) → result ≡ judged at (rule_in image.now fields.now TermKind.lower (record { context = Γ; dom = c.0 })) }
{
    let own = own_descriptor(descriptors, fields);
    let first = descriptor_at_field(image, terms, descriptors, fields, 2);
    let p = DomainNo(other_field(fields));
    judge(
        at,
        is_kind(own, UNIT_TYPE) && is_kind(first, UNIT_TYPE),
        leq(masks, p, c),
    )
}
