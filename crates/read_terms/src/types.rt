// What a type's descriptor says of it: its kind, its fields as types and domains, the domain that it names, and whether what it
// refers to is plain.
ghost use Rattle.std.specs.Prelude.{◌≡◌, not, ◌<◌, length, get_or, eqb};
ghost use Rattle.image.specs.Kinds.{TypeKind, type_row_of};
ghost use Rattle.read_records.specs.Descriptors.{descriptor_kind, descriptor_field0, descriptor_field1, descriptor_field2};
ghost use Rattle.read_terms.specs.Descriptors.{descriptor_domain, descriptor_plain};

use read_records::kinds::{ADVICE_TYPE, PAIR_TYPE, REFERENCE_TYPE};
use read_records::numbers::{
    DomainNo, TypeNo, descriptor_field0, descriptor_field1, descriptor_field2, descriptor_kind,
};

pub fn is_kind(descriptor: u32, kind: u16) -> bool
    ensures { result ≡ eqb (descriptor_kind descriptor) kind }
{
    descriptor_kind(descriptor) == kind
}

// The type in field 0, 1 or 2.
pub fn first_type(descriptor: u32) -> TypeNo
    ensures { result.0 ≡ descriptor_field0 descriptor }
{
    TypeNo(descriptor_field0(descriptor))
}

pub fn second_type(descriptor: u32) -> TypeNo
    ensures { result.0 ≡ descriptor_field1 descriptor }
{
    TypeNo(descriptor_field1(descriptor))
}

pub fn third_type(descriptor: u32) -> TypeNo
    ensures { result.0 ≡ descriptor_field2 descriptor }
{
    TypeNo(descriptor_field2(descriptor))
}

// The domain in field 0 or 1.
pub fn first_domain(descriptor: u32) -> DomainNo
    ensures { result.0 ≡ descriptor_field0 descriptor }
{
    DomainNo(descriptor_field0(descriptor))
}

pub fn second_domain(descriptor: u32) -> DomainNo
    ensures { result.0 ≡ descriptor_field1 descriptor }
{
    DomainNo(descriptor_field1(descriptor))
}

pub fn same_type(a: TypeNo, b: TypeNo) -> bool
    ensures { result ≡ eqb a.0 b.0 }
{
    a.0 == b.0
}

pub fn same_domain(a: DomainNo, b: DomainNo) -> bool
    ensures { result ≡ eqb a.0 b.0 }
{
    a.0 == b.0
}

// The domain that a type names, 0 where it names none.
pub fn domain_of(descriptor: u32) -> DomainNo
    ensures { result.0 ≡ descriptor_domain descriptor }
{
    let k = descriptor_kind(descriptor);
    if k == ADVICE_TYPE {
        return first_domain(descriptor);
    }
    if ADVICE_TYPE < k {
        return DomainNo(0);
    }
    if PAIR_TYPE < k {
        return second_domain(descriptor);
    }
    DomainNo(0)
}

// A type has leaves, as the table of leaf counts says: it is plain.
fn has_leaves(leaves: &[u8], t: TypeNo) -> bool
    requires { t.0 < length leaves.now }
    ensures { result ≡ not (eqb (get_or leaves.now t.0 0) 0) }
{
    leaves[usize::from(t.0)] != 0
}

// A reference type, and what it refers to is plain.
pub fn refers_to_plain(descriptor: u32, leaves: &[u8]) -> bool
    requires { descriptor_kind descriptor ≡ (type_row_of TypeKind.ref).number → descriptor_field0 descriptor < length leaves.now }
    ensures { result ≡ descriptor_plain leaves.now descriptor }
{
    is_kind(descriptor, REFERENCE_TYPE) && has_leaves(leaves, first_type(descriptor))
}
