// 8: no two types are equal. Types are compared by their descriptors, and the types of objects by their fields too, since
// these may have more fields than their descriptors (document 02, card 3).
ghost use Rattle.std.specs.Prelude.{◌≡◌, ◌≤◌, ◌<◌, length, get_or};
ghost use Rattle.read_records.specs.Heads.{IsWhole};
ghost use Rattle.check_repeats.specs.NewTypes.{same_fields, equal_type, new_type, Placed};

use read_records::fields::field;
use read_records::kinds;
use read_records::numbers::{TypeNo, descriptor_kind, type_descriptor, type_offset};
use read_records::reader::fields_at;

// The fields of two records have the same length and the same numbers.
fn same_fields(a: &[u8], b: &[u8]) -> bool
    ensures { result ≡ same_fields a.now b.now }
{
    if a.len() != b.len() {
        return false;
    }
    for i in 0..a.len() / 2 {
        if field(a, i) != field(b, i) {
            return false;
        }
    }
    true
}

// Type u is equal to the one with this descriptor and these fields.
fn is_equal_type(
    image: &[u8],
    fields: &[u8],
    descriptor: u32,
    u: TypeNo,
    types: &[u16],
    descriptors: &[u32],
) -> bool
    requires { (u.0 < length types.now) × (u.0 < length descriptors.now) × IsWhole image.now (get_or types.now u.0 0) }
    ensures { result ≡ equal_type image.now fields.now types.now descriptors.now descriptor u.0 }
{
    if descriptor != type_descriptor(descriptors, u) {
        return false;
    }
    if descriptor_kind(descriptor) == kinds::OBJECT_TYPE {
        return same_fields(fields, fields_at(image, type_offset(types, u)));
    }
    true
}

// No type before t is equal to the one with this descriptor and these fields.
pub fn is_new_type(
    image: &[u8],
    fields: &[u8],
    descriptor: u32,
    t: TypeNo,
    types: &[u16],
    descriptors: &[u32],
) -> bool
    requires { (t.0 ≤ length types.now) × (t.0 ≤ length descriptors.now) × Placed image.now t.0 types.now }
    ensures { result ≡ new_type image.now fields.now t.0 types.now descriptors.now descriptor }
{
    for i in 0..t.0 {
        if is_equal_type(image, fields, descriptor, TypeNo(i), types, descriptors) {
            return false;
        }
    }
    true
}
