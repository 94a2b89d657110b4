// The refusals 4 to 6, each a function, and 4 to 7 in their order.
ghost use Rattle.std.specs.Prelude.{◌≡◌, ◌+◌, ◌≤◌, ◌<◌, length};
ghost use Rattle.laws.specs.Tests.{first_fault};
ghost use Rattle.read_records.specs.Codes.{group_of, section_of, Sized};
ghost use Rattle.check_ranges.specs.Numbers.{groups_fill, length_fits, order_fits, capacity_fits, number_tests, told_of};

use crate::ranges::in_range;
use image::{DOMAIN_LIMIT, POINTCUT_LIMIT, Refusal, TERM_LIMIT, TYPE_LIMIT};
use read_records::numbers::Counts;
use read_records::table::TYPES;

// How often a group stands, at most: labels, methods and entries have the same limit.
const GROUP_LIMIT: usize = POINTCUT_LIMIT;

// So many bytes are the fields of the group, each time that it stands more often than it must.
fn groups_fill(code: u32, bytes: usize) -> bool
    requires { 0 < group_of code }
    ensures { result ≡ groups_fill code bytes }
{
    let most = GROUP_LIMIT - read_records::table::least_times(code);
    let group = read_records::table::group_count(code);
    if group == 1 {
        return bytes % 2 == 0 && bytes / 2 <= most;
    }
    bytes % (2 * group) == 0 && bytes / (2 * group) <= most
}

// 4: a record has its kind's least length, or is longer: by bytes that are skipped (document 02, card 1), or, where there is
// a group, by so much that the group stands more often, up to its limit.
pub fn right_length(code: u32, len: usize) -> bool
    requires { Sized code }
    ensures { result ≡ length_fits code len }
{
    let least = read_records::table::least_length(code);
    if len == least {
        return true;
    }
    if len < least {
        return false;
    }
    if read_records::table::group_count(code) == 0 {
        return true;
    }
    groups_fill(code, len - least)
}

// 5
pub fn in_order(code: u32, counts: Counts) -> bool
    ensures { result ≡ order_fits (section_of code) counts }
{
    if read_records::table::is_term(code) {
        return true;
    }
    if read_records::table::section_of(code) == TYPES {
        return counts.terms == 0;
    }
    counts.types == 0 && counts.terms == 0
}

// 6
pub fn has_capacity(code: u32, counts: Counts) -> bool
    ensures { result ≡ capacity_fits (section_of code) counts }
{
    if read_records::table::is_term(code) {
        return counts.terms < TERM_LIMIT;
    }
    if read_records::table::section_of(code) == TYPES {
        return counts.types < TYPE_LIMIT;
    }
    counts.domains < DOMAIN_LIMIT
}

// 4 to 7 of a record with these fields.
pub fn first_fault(fields: &[u8], code: u32, counts: Counts) -> Result<(), Refusal>
    requires { (length fields.now ≤ 65535) × Sized code }
    ensures { told_of result ≡ first_fault (number_tests fields.now code counts) }
{
    if !right_length(code, fields.len() + 4) {
        return Err(Refusal::WrongLength);
    }
    if !in_order(code, counts) {
        return Err(Refusal::SectionOrder);
    }
    if !has_capacity(code, counts) {
        return Err(Refusal::TooManyRecords);
    }
    if !in_range(fields, code, counts) {
        return Err(Refusal::FieldRange);
    }
    Ok(())
}
