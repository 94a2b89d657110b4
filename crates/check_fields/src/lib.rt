// An inner crate: what a field of a record names, and the descriptor of a type. Each function is lent the part of the image that
// the record's fields occupy.
#![tactic(auto)]

ghost use Rattle.std.specs.Prelude.{◌≡◌, ◌+◌, ◌*◌, ◌≤◌, ◌<◌, length, ltb};
ghost use Rattle.read_records.specs.Heads.{field_in};
ghost use Rattle.check_fields.specs.Fields.{type_count, field_from, Narrow, DescriptorFrom};

use read_records::fields::field_as;
use read_records::numbers::{Counts, Numbered};

// Field i is the number of a domain, a type or a term that is there.
pub fn names<N: Numbered>(fields: &[u8], i: usize, counts: Counts) -> bool
    requires { 2 * i + 1 < length fields.now }
    ensures { result ≡ ltb (field_in fields.now i) (N.count counts) }
{
    counts.has(field_as::<N>(fields, i))
}

// Field i is below the bound.
pub fn below(fields: &[u8], i: usize, bound: u16) -> bool
    requires { 2 * i + 1 < length fields.now }
    ensures { result ≡ ltb (field_in fields.now i) bound }
{
    read_records::fields::field(fields, i) < bound
}

// How many fields a type has, whose fields take so many bytes: an object's has as many as they hold.
fn type_count(code: u32, bytes: usize) -> usize
    ensures { result ≡ type_count code bytes }
{
    if read_records::table::group_count(code) == 0 {
        read_records::table::field_count(code)
    } else {
        bytes / 2
    }
}

// Field i of n, 0 where it is none of them.
fn field_or_0(fields: &[u8], n: usize, i: usize) -> u16
    requires { (2 * n ≤ length fields.now) × (i < 3) }
    ensures { result ≡ field_from fields.now n i }
{
    if i < n {
        read_records::fields::field(fields, i)
    } else {
        0
    }
}

// The descriptor of a type: its kind and its first three fields have a byte of it each.
pub fn descriptor_of(fields: &[u8], code: u32, kind: u16) -> u32
    requires { (2 * type_count code (length fields.now) ≤ length fields.now) × (kind < 256) × Narrow fields.now (type_count code (length fields.now)) }
    ensures { DescriptorFrom fields.now (type_count code (length fields.now)) kind result }
{
    let n = type_count(code, fields.len());
    read_records::numbers::descriptor_with(
        kind,
        field_or_0(fields, n, 0),
        field_or_0(fields, n, 1),
        field_or_0(fields, n, 2),
    )
}
