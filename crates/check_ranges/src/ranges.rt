// 7: the fields of a record are in their ranges. Each function is lent the part of the image that the fields occupy.
ghost use Rattle.std.specs.Prelude.{◌≡◌, ◌+◌, ◌-◌, ◌*◌, ◌/◌, ◌≤◌, ◌<◌, length, leb};
ghost use Rattle.read_records.specs.Codes.{Sized};
ghost use Rattle.read_records.specs.Heads.{field_in};
ghost use Rattle.check_ranges.specs.Ranges.{in_class, ranges_from, groups_from, classes_past};
ghost use Rattle.check_ranges.specs.Numbers.{Held, range_fits};

use check_fields::{below, names};
use image::OPERATION_COUNT;
use read_records::numbers::{Counts, DomainNo, TermNo, TypeNo};
use read_records::table::{
    CLASS_DOMAIN, CLASS_FREE, CLASS_OPERATION, CLASS_TERM, CLASS_TRUTH, CLASS_TYPE, DOMAIN, MASK,
    NO_FIELDS, TWO_TYPES, TYPE_AND_DOMAIN, TYPE_DOMAIN_AND_TYPE, field_classes, first_count,
    group_count, group_times, last_count,
};

// Operations are 0 to 3, truths 0 and 1.
pub const OPERATIONS: u16 = OPERATION_COUNT as u16;

const TRUTHS: u16 = 2;

// An entry is 0, or the number of a term that is there plus 1.
fn names_entry(fields: &[u8], i: usize, counts: Counts) -> bool
    requires { 2 * i + 1 < length fields.now }
    ensures { result ≡ leb (field_in fields.now i) counts.terms }
{
    let entry = read_records::fields::field(fields, i) as usize;
    entry <= counts.terms
}

// Field i is in the range of its class.
fn in_class(class: u32, fields: &[u8], i: usize, counts: Counts) -> bool
    requires { 2 * i + 1 < length fields.now }
    ensures { result ≡ in_class counts class (field_in fields.now i) }
{
    match class {
        CLASS_TYPE => names::<TypeNo>(fields, i, counts),
        CLASS_DOMAIN => names::<DomainNo>(fields, i, counts),
        CLASS_OPERATION => below(fields, i, OPERATIONS),
        CLASS_TRUTH => below(fields, i, TRUTHS),
        CLASS_FREE => true,
        CLASS_TERM => names::<TermNo>(fields, i, counts),
        _ => names_entry(fields, i, counts),
    }
}

// Count fields from a place on are in their ranges; they have the lowest of the classes.
fn fields_in_range(fields: &[u8], from: usize, count: usize, classes: u32, counts: Counts) -> bool
    requires { 2 * (from + count) ≤ length fields.now }
    ensures { result ≡ ranges_from count classes fields.now counts from }
{
    let mut rest = classes;
    for i in from..from + count {
        if !in_class(rest % 8, fields, i, counts) {
            return false;
        }
        rest /= 8;
    }
    true
}

// The same of up to two fields, in straight line.
fn few_in_range(fields: &[u8], from: usize, count: usize, classes: u32, counts: Counts) -> bool
    requires { (count ≤ 2) × (2 * (from + count) ≤ length fields.now) }
    ensures { result ≡ ranges_from count classes fields.now counts from }
{
    if count == 0 {
        return true;
    }
    let first = in_class(classes % 8, fields, from, counts);
    if count == 1 {
        return first;
    }
    first & in_class(classes / 8 % 8, fields, from + 1, counts)
}

// A group of up to two fields that stands so many times from a place on.
fn groups_in_range(
    fields: &[u8],
    from: usize,
    times: usize,
    group: usize,
    classes: u32,
    counts: Counts,
) -> bool
    requires { (group ≤ 2) × (2 * (from + times * group) ≤ length fields.now) }
    ensures { result ≡ groups_from times group classes fields.now counts from }
{
    for k in 0..times {
        if !few_in_range(fields, from + k * group, group, classes, counts) {
            return false;
        }
    }
    true
}

// All fields from a place on are children: a group of one child.
pub fn children_in_range(fields: &[u8], from: usize, counts: Counts) -> bool
    ensures { result ≡ groups_from (length fields.now / 2 - from) 1 5 fields.now counts from }
{
    for i in from..fields.len() / 2 {
        if !names::<TermNo>(fields, i, counts) {
            return false;
        }
    }
    true
}

// The classes without the n lowest.
fn classes_past(n: usize, classes: u32) -> u32
    ensures { result ≡ classes_past n classes }
{
    let mut rest = classes;
    for _ in 0..n {
        rest /= 8;
    }
    rest
}

// The first fields, the group's each time that it stands, and the last ones.
pub fn all_in_range(fields: &[u8], code: u32, counts: Counts) -> bool
    requires { Sized code × Held code (length fields.now) }
    ensures { result ≡ range_fits fields.now code counts }
{
    let first = first_count(code);
    let classes = field_classes(code);
    if !fields_in_range(fields, 0, first, classes, counts) {
        return false;
    }
    let group = group_count(code);
    let times = group_times(code, fields.len());
    if !groups_in_range(
        fields,
        first,
        times,
        group,
        classes_past(first, classes),
        counts,
    ) {
        return false;
    }
    few_in_range(
        fields,
        first + times * group,
        last_count(code),
        classes_past(first + group, classes),
        counts,
    )
}

// 7 of a domain or a type. Types but objects' are tested in straight line, since their fields are known from the code; those
// go through the loops.
pub fn in_range(fields: &[u8], code: u32, counts: Counts) -> bool
    requires { Sized code × Held code (length fields.now) }
    ensures { result ≡ range_fits fields.now code counts }
{
    match code {
        MASK | NO_FIELDS => true,
        TYPE_AND_DOMAIN => names::<TypeNo>(fields, 0, counts)
            & names::<DomainNo>(fields, 1, counts),
        TYPE_DOMAIN_AND_TYPE => {
            names::<TypeNo>(fields, 0, counts)
                & (names::<DomainNo>(fields, 1, counts) & names::<TypeNo>(fields, 2, counts))
        }
        TWO_TYPES => names::<TypeNo>(fields, 0, counts) & names::<TypeNo>(fields, 1, counts),
        DOMAIN => names::<DomainNo>(fields, 0, counts),
        _ => all_in_range(fields, code, counts),
    }
}
