// Where a child of a term stands: the types of the variables, in the first places of a lent scope, the innermost last; and
// the current domain (document 01, "Typing").
ghost use Rattle.std.specs.Prelude.{◌≡◌, ◌<◌, length, set};
ghost use Rattle.image.specs.Kinds.{TermKind, term_row};
ghost use Rattle.read_terms.specs.Lent.{Types, Lent, TypeOffsets};
ghost use Rattle.read_terms.specs.Fields.{children_in, count_in};
ghost use Rattle.check_rules.specs.Scopes.{scope_length};
ghost use Rattle.check_scopes.specs.Scopes.{Passed, ChildAt, moves_child};

use crate::matches::match_setting;
use check_objects::objects::method_domain;
use check_rules::leaf::SCOPE_LENGTH;
use read_records::kinds;
use read_records::numbers::{DomainNo, TypeNo};
use read_terms::terms::{descriptor_at_field, other_field, own_descriptor, own_type};
use read_terms::types::{first_domain, first_type, second_domain, second_type};

// How many places of the scope are used, and the current domain.
#[derive(Clone, Copy)]
pub struct Setting {
    pub len: usize,
    pub dom: DomainNo,
}

// One variable more.
pub fn bind(scope: &mut [u8; SCOPE_LENGTH], len: usize, t: TypeNo)
    requires { (len < scope_length) × (t.0 < 256) }
    ensures { scope.new ≡ set scope.old len t.0 }
{
    scope[len] = t.0 as u8;
}

// The body of a function stands under its parameter, at its type's domain.
fn function_setting(
    image: &[u8],
    descriptors: &[u32],
    scope: &mut [u8; SCOPE_LENGTH],
    p: Setting,
    fields: &[u8],
) -> Setting
    requires { Types image.now descriptors.now × Passed image.now fields.now TermKind.fun scope.old p.len p.dom.0 }
    ensures { ChildAt image.now fields.now TermKind.fun 0 scope.old scope.new p.len p.dom.0 result.len result.dom.0 }
{
    let own = own_descriptor(descriptors, fields);
    bind(scope, p.len, first_type(own));
    let inner = second_domain(own);
    Setting {
        len: p.len + 1,
        dom: inner,
    }
}

// The body of a split stands under both parts of the pair.
fn split_setting(
    image: &[u8],
    terms: &[u16],
    descriptors: &[u32],
    scope: &mut [u8; SCOPE_LENGTH],
    p: Setting,
    fields: &[u8],
) -> Setting
    requires { Lent image.now terms.now descriptors.now × Passed image.now fields.now TermKind.split scope.old p.len p.dom.0 }
    ensures { ChildAt image.now fields.now TermKind.split 1 scope.old scope.new p.len p.dom.0 result.len result.dom.0 }
{
    let pair = descriptor_at_field(image, terms, descriptors, fields, 1);
    let first = first_type(pair);
    let second = second_type(pair);
    bind(scope, p.len, first);
    bind(scope, p.len + 1, second);
    Setting {
        len: p.len + 2,
        ..p
    }
}

// The body of an advice stands under the value of its pointcut, at its type's domain.
fn advice_setting(
    image: &[u8],
    terms: &[u16],
    descriptors: &[u32],
    scope: &mut [u8; SCOPE_LENGTH],
    p: Setting,
    fields: &[u8],
) -> Setting
    requires { Lent image.now terms.now descriptors.now × Passed image.now fields.now TermKind.adv scope.old p.len p.dom.0 }
    ensures { ChildAt image.now fields.now TermKind.adv 1 scope.old scope.new p.len p.dom.0 result.len result.dom.0 }
{
    let own = own_descriptor(descriptors, fields);
    let pointcut = descriptor_at_field(image, terms, descriptors, fields, 1);
    bind(scope, p.len, first_type(pointcut));
    let inner = first_domain(own);
    Setting {
        len: p.len + 1,
        dom: inner,
    }
}

// The body of a lower stands at the domain in its field.
fn lower_setting(image: &[u8], scope: &[u8; SCOPE_LENGTH], p: Setting, fields: &[u8]) -> Setting
    requires { Passed image.now fields.now TermKind.lower scope.now p.len p.dom.0 }
    ensures { ChildAt image.now fields.now TermKind.lower 0 scope.now scope.now p.len p.dom.0 result.len result.dom.0 }
{
    Setting {
        dom: DomainNo(other_field(fields)),
        ..p
    }
}

// The body of method i of an object stands under the object itself, at the method's domain (document 02, card 3).
fn object_setting(
    image: &[u8],
    types: &[u16],
    scope: &mut [u8; SCOPE_LENGTH],
    p: Setting,
    fields: &[u8],
    i: usize,
) -> Setting
    requires { TypeOffsets image.now types.now × Passed image.now fields.now TermKind.obj scope.old p.len p.dom.0 × (i < count_in fields.now TermKind.obj) }
    ensures { ChildAt image.now fields.now TermKind.obj i scope.old scope.new p.len p.dom.0 result.len result.dom.0 }
{
    let own = own_type(fields);
    bind(scope, p.len, own);
    let inner = method_domain(image, types, own, i);
    Setting {
        len: p.len + 1,
        dom: inner,
    }
}

// Child i of a term that stands at p and has passed its rule.
pub fn child_setting(
    image: &[u8],
    types: &[u16],
    terms: &[u16],
    descriptors: &[u32],
    scope: &mut [u8; SCOPE_LENGTH],
    p: Setting,
    kind: u16,
    fields: &[u8],
    i: usize,
) -> Setting
    requires { Lent image.now terms.now descriptors.now × ((k : TermKind) → kind ≡ (term_row k).number → Passed image.now fields.now k scope.old p.len p.dom.0 × (i < length (children_in fields.now k))) × TypeOffsets image.now types.now }
    ensures { (k : TermKind) → kind ≡ (term_row k).number → ChildAt image.now fields.now k i scope.old scope.new p.len p.dom.0 result.len result.dom.0 }
{
    match kind {
        kinds::FUNCTION => function_setting(image, descriptors, scope, p, fields),
        kinds::LOWER => lower_setting(image, scope, p, fields),
        kinds::SPLIT => {
            if i == 1 {
                split_setting(image, terms, descriptors, scope, p, fields)
            } else {
                p
            }
        }
        kinds::ADVICE => {
            if i == 1 {
                advice_setting(image, terms, descriptors, scope, p, fields)
            } else {
                p
            }
        }
        kinds::OBJECT => object_setting(image, types, scope, p, fields, i),
        kinds::MATCH => {
            if i == 1 {
                match_setting(image, terms, descriptors, scope, p, fields)
            } else {
                p
            }
        }
        _ => p,
    }
}

// Some child of the kind stands elsewhere than its term: under other variables, or at another domain.
pub fn moves_child(kind: u16) -> bool
    ensures { (k : TermKind) → kind ≡ (term_row k).number → result ≡ moves_child k }
{
    match kind {
        kinds::FUNCTION => true,
        kinds::LOWER => true,
        kinds::SPLIT => true,
        kinds::ADVICE => true,
        kinds::OBJECT => true,
        kinds::MATCH => true,
        _ => false,
    }
}
