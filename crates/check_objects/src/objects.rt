// The rules of objects and calls (document 02, card 3), and the methods of an object's type: the fields of its record.
ghost use Rattle.std.specs.Prelude.{◌≡◌, List, ℕ, ◌+◌, ◌*◌, ◌<◌, length};
ghost use Rattle.image.specs.Layout.{records_of};
ghost use Rattle.image.specs.Kinds.{TermKind};
ghost use Rattle.image.specs.Types.{type_field, method_count};
ghost use Rattle.read_records.specs.Heads.{field_in};
ghost use Rattle.verdict.specs.Settings.{Setting};
ghost use Rattle.verdict.specs.Rules.{bodies_fit};
ghost use Rattle.verdict.specs.Check.{describe, described};
ghost use Rattle.read_terms.specs.Lent.{Terms, Types, Lent, TypeOffsets, IsType, IsObject};
ghost use Rattle.read_terms.specs.Fields.{count_in, types_in, Typed, AtField, Bodies};
ghost use Rattle.check_rules.specs.Rules.{rule_in};
ghost use Rattle.check_rules.specs.Judged.{judged, call_fits};

use check_rules::judge::judge;
use read_records::fields::{field, field_as};
use read_records::kinds::OBJECT_TYPE;
use read_records::numbers::{DomainNo, TypeNo, type_descriptor};
use read_terms::terms::{bodies_in, own_descriptor, own_type, type_at_field};
use read_terms::type_records::type_fields;
use read_terms::types::{is_kind, same_domain, same_type};
use verdict::Verdict;

// How many methods an object's type has: each has a domain and a type.
fn method_count(image: &[u8], types: &[u16], t: TypeNo) -> usize
    requires { TypeOffsets image.now types.now × IsObject image.now t.0 }
    ensures { result ≡ method_count (records_of image.now) t.0 }
{
    type_fields(image, types, t).len() / 4
}

// The domain that method m runs at, and the type of what it gives.
pub fn method_domain(image: &[u8], types: &[u16], t: TypeNo, m: usize) -> DomainNo
    requires { TypeOffsets image.now types.now × IsObject image.now t.0 × (m < method_count (records_of image.now) t.0) }
    ensures { result.0 ≡ type_field (records_of image.now) t.0 (2 * m) }
{
    field_as(type_fields(image, types, t), 2 * m)
}

fn method_type(image: &[u8], types: &[u16], t: TypeNo, m: usize) -> TypeNo
    requires { TypeOffsets image.now types.now × IsObject image.now t.0 × (m < method_count (records_of image.now) t.0) }
    ensures { result.0 ≡ type_field (records_of image.now) t.0 (2 * m + 1) }
{
    field_as(type_fields(image, types, t), 2 * m + 1)
}

// Each body is of its method's type; there are as many methods as bodies.
fn bodies_fit(image: &[u8], types: &[u16], terms: &[u16], fields: &[u8], t: TypeNo) -> bool
    requires { TypeOffsets image.now types.now × Terms image.now terms.now × IsObject image.now t.0 × Bodies image.now fields.now × (count_in fields.now TermKind.obj ≡ method_count (records_of image.now) t.0) }
    ensures { result ≡ bodies_fit (describe (records_of image.now) t.0) 0 (described (records_of image.now) (types_in image.now fields.now TermKind.obj)) }
{
    for i in 0..bodies_in(fields) {
        let body = type_at_field(image, terms, fields, 1 + i);
        if !same_type(method_type(image, types, t, i), body) {
            return false;
        }
    }
    true
}

// The types of an object fit: it has an object's type, and a body for each method.
fn object_fits(
    image: &[u8],
    types: &[u16],
    terms: &[u16],
    descriptors: &[u32],
    fields: &[u8],
) -> bool
    requires { Lent image.now terms.now descriptors.now × TypeOffsets image.now types.now × Typed image.now fields.now × Bodies image.now fields.now }
    ensures { (p : Setting ℕ) → result ≡ (rule_in image.now fields.now TermKind.obj p).typed }
{
    let t = own_type(fields);
    is_kind(own_descriptor(descriptors, fields), OBJECT_TYPE)
        && bodies_in(fields) == method_count(image, types, t)
        && bodies_fit(image, types, terms, fields, t)
}

// An object, with bodies at any domains.
pub fn check_object(
    image: &[u8],
    types: &[u16],
    terms: &[u16],
    descriptors: &[u32],
    at: usize,
    fields: &[u8],
) -> Verdict
    requires { Lent image.now terms.now descriptors.now × TypeOffsets image.now types.now × Typed image.now fields.now × Bodies image.now fields.now }
    ensures { (p : Setting ℕ) → result ≡ judged at (rule_in image.now fields.now TermKind.obj p) }
{
    judge(
        at,
        object_fits(image, types, terms, descriptors, fields),
        true,
    )
}

// The method's number in a call, its last field.
fn method_number(fields: &[u8]) -> usize
    requires { 5 < length fields.now }
    ensures { result ≡ field_in fields.now 2 }
{
    usize::from(field(fields, 2))
}

// The types of a call fit: a is an object's type, whose method m gives t.
fn call_fits(
    image: &[u8],
    types: &[u16],
    descriptors: &[u32],
    a: TypeNo,
    m: usize,
    t: TypeNo,
) -> bool
    requires { Types image.now descriptors.now × TypeOffsets image.now types.now × IsType image.now a.0 }
    ensures { result ≡ call_fits (records_of image.now) a.0 m t.0 }
{
    is_kind(type_descriptor(descriptors, a), OBJECT_TYPE)
        && m < method_count(image, types, a)
        && same_type(method_type(image, types, a, m), t)
}

// A call of a method that runs at the current domain; the method's number stands behind the object.
pub fn check_method_call(
    image: &[u8],
    types: &[u16],
    terms: &[u16],
    descriptors: &[u32],
    at: usize,
    fields: &[u8],
    c: DomainNo,
) -> Verdict
    requires { Lent image.now terms.now descriptors.now × TypeOffsets image.now types.now × Typed image.now fields.now × AtField image.now fields.now 1 × (5 < length fields.now) }
    ensures { (Γ : List ℕ) → result ≡ judged at (rule_in image.now fields.now TermKind.call (record { context = Γ; dom = c.0 })) }
{
    let a = type_at_field(image, terms, fields, 1);
    let m = method_number(fields);
    if !call_fits(image, types, descriptors, a, m, own_type(fields)) {
        return Err(image::Refused {
            why: image::Refusal::TypeRule,
            place: at,
        });
    }
    judge(at, true, same_domain(method_domain(image, types, a, m), c))
}
