// The rules of labels, marks, pointcuts and advice (document 01, "Typing").
ghost use Rattle.std.specs.Prelude.{◌≡◌, ℕ, ◌<◌, List, [], ◌∷◌, length, eqb};
ghost use Rattle.laws.specs.Tests.{all, all_of};
ghost use Rattle.image.specs.Kinds.{TermKind, TypeKind};
ghost use Rattle.read_records.specs.Descriptors.{descriptor_field0};
ghost use Rattle.read_terms.specs.Descriptors.{descriptor_is};
ghost use Rattle.verdict.specs.Settings.{Setting};
ghost use Rattle.read_terms.specs.Lent.{Lent, Types, Masks};
ghost use Rattle.read_terms.specs.Fields.{types_in, Typed, AtField, Labels};
ghost use Rattle.check_rules.specs.Rules.{rule_in};
ghost use Rattle.check_rules.specs.Judged.{judged, label_of, label_above};

use check_rules::judge::judge;
use image::DOMAIN_LIMIT;
use read_records::kinds::{ADVICE_TYPE, LABEL_TYPE, POINTCUT_TYPE, UNIT_TYPE};
use read_records::numbers::{DomainNo, TypeNo};
use read_terms::domains::leq;
use read_terms::terms::{
    descriptor_at_field, labels_in, other_field, own_descriptor, type_at_field,
};
use read_terms::types::{first_domain, first_type, is_kind, same_domain, same_type, second_domain};
use verdict::Verdict;

// A new label is of a domain that is below the current one.
pub fn check_new_label(
    image: &[u8],
    masks: &[u16; DOMAIN_LIMIT],
    descriptors: &[u32],
    at: usize,
    fields: &[u8],
    c: DomainNo,
) -> Verdict
    requires { Types image.now descriptors.now × Typed image.now fields.now × Masks image.now masks.now }
    ensures { (Γ : List ℕ) → result ≡ judged at (rule_in image.now fields.now TermKind.new_label (record { context = Γ; dom = c.0 })) }
{
    let own = own_descriptor(descriptors, fields);
    judge(
        at,
        is_kind(own, LABEL_TYPE),
        leq(masks, second_domain(own), c),
    )
}

// Mark takes a label of the current domain and what its advice takes, and gives unit.
pub fn check_mark(
    image: &[u8],
    terms: &[u16],
    descriptors: &[u32],
    at: usize,
    fields: &[u8],
    c: DomainNo,
) -> Verdict
    requires { Lent image.now terms.now descriptors.now × Typed image.now fields.now × AtField image.now fields.now 1 × AtField image.now fields.now 2 }
    ensures { (Γ : List ℕ) → result ≡ judged at (rule_in image.now fields.now TermKind.mark (record { context = Γ; dom = c.0 })) }
{
    let own = own_descriptor(descriptors, fields);
    let first = descriptor_at_field(image, terms, descriptors, fields, 1);
    let second = type_at_field(image, terms, fields, 2);
    judge(
        at,
        is_kind(own, UNIT_TYPE)
            && is_kind(first, LABEL_TYPE)
            && same_type(first_type(first), second),
        same_domain(second_domain(first), c),
    )
}

// The descriptor is that of the type of labels of a.
#[tactic(auto, unfolding(laws::specs::Tests::all))]
fn is_label_of(descriptor: u32, a: TypeNo) -> bool
    ensures { result ≡ all (descriptor_is descriptor TypeKind.label ∷ eqb (descriptor_field0 descriptor) a.0 ∷ []) }
{
    is_kind(descriptor, LABEL_TYPE) && same_type(first_type(descriptor), a)
}

// Of the labels behind a pointcut's type: each is a label of a; each has a domain that d is below.
fn labels_fit(image: &[u8], terms: &[u16], descriptors: &[u32], fields: &[u8], a: TypeNo) -> bool
    requires { Lent image.now terms.now descriptors.now × Labels image.now fields.now }
    ensures { result ≡ all_of (label_of descriptors.now a.0) (types_in image.now fields.now TermKind.pcd) }
{
    for i in 0..labels_in(fields) {
        let descriptor = descriptor_at_field(image, terms, descriptors, fields, 1 + i);
        if !is_label_of(descriptor, a) {
            return false;
        }
    }
    true
}

fn labels_above(
    image: &[u8],
    masks: &[u16; DOMAIN_LIMIT],
    terms: &[u16],
    descriptors: &[u32],
    fields: &[u8],
    d: DomainNo,
) -> bool
    requires { Lent image.now terms.now descriptors.now × Labels image.now fields.now }
    ensures { result ≡ all_of (label_above masks.now descriptors.now d.0) (types_in image.now fields.now TermKind.pcd) }
{
    for i in 0..labels_in(fields) {
        let descriptor = descriptor_at_field(image, terms, descriptors, fields, 1 + i);
        if !leq(masks, d, second_domain(descriptor)) {
            return false;
        }
    }
    true
}

// A pointcut: labels of one type, each of a domain that the pointcut's is below.
pub fn check_pointcut(
    image: &[u8],
    masks: &[u16; DOMAIN_LIMIT],
    terms: &[u16],
    descriptors: &[u32],
    at: usize,
    fields: &[u8],
) -> Verdict
    requires { Lent image.now terms.now descriptors.now × Typed image.now fields.now × Labels image.now fields.now × Masks image.now masks.now }
    ensures { (p : Setting ℕ) → result ≡ judged at (rule_in image.now fields.now TermKind.pcd p) }
{
    let own = own_descriptor(descriptors, fields);
    let fit = labels_fit(image, terms, descriptors, fields, first_type(own));
    let above = labels_above(image, masks, terms, descriptors, fields, second_domain(own));
    judge(at, is_kind(own, POINTCUT_TYPE) && fit, above)
}

// An advice, of a domain that is below its pointcut's, has a unit body.
pub fn check_advice(
    image: &[u8],
    masks: &[u16; DOMAIN_LIMIT],
    terms: &[u16],
    descriptors: &[u32],
    at: usize,
    fields: &[u8],
) -> Verdict
    requires { Lent image.now terms.now descriptors.now × Typed image.now fields.now × AtField image.now fields.now 1 × AtField image.now fields.now 2 × Masks image.now masks.now }
    ensures { (p : Setting ℕ) → result ≡ judged at (rule_in image.now fields.now TermKind.adv p) }
{
    let own = own_descriptor(descriptors, fields);
    let first = descriptor_at_field(image, terms, descriptors, fields, 1);
    let second = descriptor_at_field(image, terms, descriptors, fields, 2);
    judge(
        at,
        is_kind(own, ADVICE_TYPE) && is_kind(first, POINTCUT_TYPE) && is_kind(second, UNIT_TYPE),
        leq(masks, first_domain(own), second_domain(first)),
    )
}

// Install takes an advice of a domain that is below the current one, and gives unit.
pub fn check_install(
    image: &[u8],
    masks: &[u16; DOMAIN_LIMIT],
    terms: &[u16],
    descriptors: &[u32],
    at: usize,
    fields: &[u8],
    c: DomainNo,
) -> Verdict
    requires { Lent image.now terms.now descriptors.now × Typed image.now fields.now × AtField image.now fields.now 1 × Masks image.now masks.now }
    ensures { (Γ : List ℕ) → result ≡ judged at (rule_in image.now fields.now TermKind.install (record { context = Γ; dom = c.0 })) }
{
    let own = own_descriptor(descriptors, fields);
    let first = descriptor_at_field(image, terms, descriptors, fields, 1);
    judge(
        at,
        is_kind(own, UNIT_TYPE) && is_kind(first, ADVICE_TYPE),
        leq(masks, first_domain(first), c),
    )
}

// A takedown (document 02, card 7) names a domain that is below the current one, and gives unit.
pub fn check_takedown(
    image: &[u8],
    masks: &[u16; DOMAIN_LIMIT],
    descriptors: &[u32],
    at: usize,
    fields: &[u8],
    c: DomainNo,
) -> Verdict
    requires { Types image.now descriptors.now × Typed image.now fields.now × (3 < length fields.now) × Masks image.now masks.now }
    ensures { (Γ : List ℕ) → result ≡ judged at (rule_in image.now fields.now TermKind.takedown (record { context = Γ; dom = c.0 })) }
{
    let own = own_descriptor(descriptors, fields);
    let p = DomainNo(other_field(fields));
    judge(at, is_kind(own, UNIT_TYPE), leq(masks, p, c))
}
