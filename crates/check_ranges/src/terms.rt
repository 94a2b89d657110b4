// 4 to 7 of a term, and its marks: those of its children, which are used once more, and its own, the height. A frequent kind has
// both in straight line, since its fields are known from the code: & joins the tests without a branch between them.
ghost use Rattle.std.specs.Prelude.{◌≡◌, ◌-◌, ◌/◌, ◌≤◌, ◌<◌, true, ◌&&◌, [], ◌∷◌, length, ltb};
ghost use Rattle.image.specs.Limits.{operation_count, term_limit};
ghost use Rattle.calculus.specs.Combinators.{choose};
ghost use Rattle.laws.specs.Tests.{first_fault};
ghost use Rattle.read_records.specs.Counts.{Few};
ghost use Rattle.read_records.specs.Codes.{Sized};
ghost use Rattle.read_records.specs.Heads.{field_in, children_of, Fitting};
ghost use Rattle.check_uses.specs.Marks.{Lower, entered};
ghost use Rattle.check_ranges.specs.Ranges.{groups_from};
ghost use Rattle.check_ranges.specs.Numbers.{Held, range_fits, number_tests, told_of};
ghost use Rattle.check_ranges.specs.Terms.{ChildrenLower, TermFields, marks_behind};

use crate::faults::{has_capacity, right_length};
use crate::ranges::{OPERATIONS, all_in_range, children_in_range};
use check_fields::{below, names};
use check_uses::children::{enter_children, enter_leaf, enter_one, enter_three, enter_two};
use image::Refusal;
use read_records::fields::field_as;
use read_records::numbers::{Counts, DomainNo, TermNo, TypeNo};
use read_records::table::{
    TYPE, TYPE_AND_CHILD, TYPE_AND_CHILDREN, TYPE_AND_FREE, TYPE_AND_THREE_CHILDREN,
    TYPE_AND_TWO_CHILDREN, TYPE_AND_TWO_FREE, TYPE_DOMAIN_AND_CHILD,
    TYPE_OPERATION_AND_TWO_CHILDREN,
};

// A type, and no child.
fn take_leaf(fields: &[u8], counts: Counts, marks: &mut [u8]) -> bool
    requires { (2 ≤ length fields.now) × Few counts × (counts.terms < length marks.old) }
    ensures { (result ≡ ltb (field_in fields.now 0) counts.types) × (marks.new ≡ choose result (entered [] counts.terms marks.old) marks.old) }
{
    let ok = names::<TypeNo>(fields, 0, counts);
    if ok {
        enter_leaf(marks, counts.next());
    }
    ok
}

// A type and a child; two children; three.
fn take_one(fields: &[u8], counts: Counts, marks: &mut [u8]) -> bool
    requires { (4 ≤ length fields.now) × Few counts × (counts.terms < length marks.old) }
    ensures { (result ≡ (ltb (field_in fields.now 0) counts.types && ltb (field_in fields.now 1) counts.terms)) × (marks.new ≡ choose result (entered (field_in fields.now 1 ∷ []) counts.terms marks.old) marks.old) }
{
    let ok = names::<TypeNo>(fields, 0, counts) & names::<TermNo>(fields, 1, counts);
    if ok {
        enter_one(marks, counts.next(), field_as(fields, 1));
    }
    ok
}

fn take_two(fields: &[u8], counts: Counts, marks: &mut [u8]) -> bool
    requires { (6 ≤ length fields.now) × Few counts × (counts.terms < length marks.old) }
    ensures { (result ≡ (ltb (field_in fields.now 0) counts.types && (ltb (field_in fields.now 1) counts.terms && ltb (field_in fields.now 2) counts.terms))) × (marks.new ≡ choose result (entered (field_in fields.now 1 ∷ field_in fields.now 2 ∷ []) counts.terms marks.old) marks.old) }
{
    let ok = names::<TypeNo>(fields, 0, counts)
        & (names::<TermNo>(fields, 1, counts) & names::<TermNo>(fields, 2, counts));
    if ok {
        enter_two(
            marks,
            counts.next(),
            field_as(fields, 1),
            field_as(fields, 2),
        );
    }
    ok
}

fn take_three(fields: &[u8], counts: Counts, marks: &mut [u8]) -> bool
    requires { (8 ≤ length fields.now) × Few counts × (counts.terms < length marks.old) }
    ensures { (result ≡ (ltb (field_in fields.now 0) counts.types && (ltb (field_in fields.now 1) counts.terms && (ltb (field_in fields.now 2) counts.terms && ltb (field_in fields.now 3) counts.terms)))) × (marks.new ≡ choose result (entered (field_in fields.now 1 ∷ field_in fields.now 2 ∷ field_in fields.now 3 ∷ []) counts.terms marks.old) marks.old) }
{
    let ok = names::<TypeNo>(fields, 0, counts)
        & (names::<TermNo>(fields, 1, counts)
            & (names::<TermNo>(fields, 2, counts) & names::<TermNo>(fields, 3, counts)));
    if ok {
        enter_three(
            marks,
            counts.next(),
            field_as(fields, 1),
            field_as(fields, 2),
            field_as(fields, 3),
        );
    }
    ok
}

// A type, an operation and two children.
fn take_operation(fields: &[u8], counts: Counts, marks: &mut [u8]) -> bool
    requires { (8 ≤ length fields.now) × Few counts × (counts.terms < length marks.old) }
    ensures { (result ≡ (ltb (field_in fields.now 0) counts.types && (ltb (field_in fields.now 1) operation_count && (ltb (field_in fields.now 2) counts.terms && ltb (field_in fields.now 3) counts.terms)))) × (marks.new ≡ choose result (entered (field_in fields.now 2 ∷ field_in fields.now 3 ∷ []) counts.terms marks.old) marks.old) }
{
    let ok = names::<TypeNo>(fields, 0, counts)
        & (below(fields, 1, OPERATIONS)
            & (names::<TermNo>(fields, 2, counts) & names::<TermNo>(fields, 3, counts)));
    if ok {
        enter_two(
            marks,
            counts.next(),
            field_as(fields, 2),
            field_as(fields, 3),
        );
    }
    ok
}

// A type, a domain and a child.
fn take_lowered(fields: &[u8], counts: Counts, marks: &mut [u8]) -> bool
    requires { (6 ≤ length fields.now) × Few counts × (counts.terms < length marks.old) }
    ensures { (result ≡ (ltb (field_in fields.now 0) counts.types && (ltb (field_in fields.now 1) counts.domains && ltb (field_in fields.now 2) counts.terms))) × (marks.new ≡ choose result (entered (field_in fields.now 2 ∷ []) counts.terms marks.old) marks.old) }
{
    let ok = names::<TypeNo>(fields, 0, counts)
        & (names::<DomainNo>(fields, 1, counts) & names::<TermNo>(fields, 2, counts));
    if ok {
        enter_one(marks, counts.next(), field_as(fields, 2));
    }
    ok
}

// A type, and nothing but children: a pointcut.
fn take_group(fields: &[u8], code: u32, counts: Counts, marks: &mut [u8]) -> bool
    requires { (2 ≤ length fields.now) × Fitting code fields.now × ((ltb (field_in fields.now 0) counts.types && groups_from (length fields.now / 2 - 1) 1 5 fields.now counts 1) ≡ true → Lower counts.terms (children_of code fields.now)) × Few counts × (counts.terms < length marks.old) }
    ensures { (result ≡ (ltb (field_in fields.now 0) counts.types && groups_from (length fields.now / 2 - 1) 1 5 fields.now counts 1)) × (marks.new ≡ choose result (entered (children_of code fields.now) counts.terms marks.old) marks.old) }
{
    let ok = names::<TypeNo>(fields, 0, counts) & children_in_range(fields, 1, counts);
    if ok {
        enter_children(fields, code, counts.next(), marks);
    }
    ok
}

// All other fields.
fn take_any(fields: &[u8], code: u32, counts: Counts, marks: &mut [u8]) -> bool
    requires { Sized code × Held code (length fields.now) × Fitting code fields.now × ChildrenLower fields.now code counts × Few counts × (counts.terms < length marks.old) }
    ensures { (result ≡ range_fits fields.now code counts) × (marks.new ≡ choose result (entered (children_of code fields.now) counts.terms marks.old) marks.old) }
{
    let ok = all_in_range(fields, code, counts);
    if ok {
        enter_children(fields, code, counts.next(), marks);
    }
    ok
}

// 7, and the marks of a term that passes it.
fn take(fields: &[u8], code: u32, counts: Counts, marks: &mut [u8]) -> bool
    requires { Sized code × Held code (length fields.now) × Fitting code fields.now × ChildrenLower fields.now code counts × Few counts × (counts.terms < length marks.old) }
    ensures { (result ≡ range_fits fields.now code counts) × (marks.new ≡ choose result (entered (children_of code fields.now) counts.terms marks.old) marks.old) }
{
    match code {
        TYPE | TYPE_AND_FREE | TYPE_AND_TWO_FREE => take_leaf(fields, counts, marks),
        TYPE_AND_CHILD => take_one(fields, counts, marks),
        TYPE_AND_TWO_CHILDREN => take_two(fields, counts, marks),
        TYPE_AND_THREE_CHILDREN => take_three(fields, counts, marks),
        TYPE_OPERATION_AND_TWO_CHILDREN => take_operation(fields, counts, marks),
        TYPE_DOMAIN_AND_CHILD => take_lowered(fields, counts, marks),
        TYPE_AND_CHILDREN => take_group(fields, code, counts, marks),
        _ => take_any(fields, code, counts, marks),
    }
}

// 4 to 7, in their order; 5 refuses no term.
pub fn term_fault(fields: &[u8], code: u32, counts: Counts, marks: &mut [u8]) -> Result<(), Refusal>
    requires { (length fields.now ≤ 65535) × TermFields fields.now code counts × Few counts × (term_limit ≤ length marks.old) }
    ensures { (told_of result ≡ first_fault (number_tests fields.now code counts)) × (marks.new ≡ marks_behind result (children_of code fields.now) counts.terms marks.old) }
{
    if !right_length(code, fields.len() + 4) {
        return Err(Refusal::WrongLength);
    }
    if !has_capacity(code, counts) {
        return Err(Refusal::TooManyRecords);
    }
    if !take(fields, code, counts, marks) {
        return Err(Refusal::FieldRange);
    }
    Ok(())
}
