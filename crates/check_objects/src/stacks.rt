// The rules of stacks, keeps and matches (document 02, card 6; document 003, section 2.4).
ghost use Rattle.std.specs.Prelude.{◌≡◌, List, ℕ, ◌≤◌, length};
ghost use Rattle.laws.specs.Tests.{all_of};
ghost use Rattle.image.specs.Kinds.{TermKind, an_entry};
ghost use Rattle.image.specs.Records.{as_child};
ghost use Rattle.image.specs.Layout.{records_of};
ghost use Rattle.verdict.specs.Settings.{Setting};
ghost use Rattle.read_terms.specs.Lent.{Types, Lent};
ghost use Rattle.check_rules.specs.Rules.{rule_in};
ghost use Rattle.read_terms.specs.Fields.{Typed, AtField, entry_terms, Entries};
ghost use Rattle.check_rules.specs.Judged.{judged, cut_of};

use check_rules::judge::judge;
use read_records::fields::field;
use read_records::kinds::{LABEL_TYPE, POINTCUT_TYPE, STACK_TYPE};
use read_records::numbers::{DomainNo, entry_term, type_descriptor};
use read_terms::entries::{FIRST_ENTRY, entries_in};
use read_terms::terms::{
    descriptor_at_field, own_descriptor, own_type, stated_type, type_at_field,
};
use read_terms::types::{first_type, is_kind, same_domain, same_type, second_domain};
use verdict::Verdict;

// The current stack.
pub fn check_stack(image: &[u8], descriptors: &[u32], at: usize, fields: &[u8]) -> Verdict
    requires { Types image.now descriptors.now × Typed image.now fields.now }
    ensures { (p : Setting ℕ) → result ≡ judged at (rule_in image.now fields.now TermKind.stack p) }
{
    judge(
        at,
        is_kind(own_descriptor(descriptors, fields), STACK_TYPE),
        true,
    )
}

// Keep takes a label of the current domain, a value of the label's type and a body, which gives the type.
pub fn check_keep(
    image: &[u8],
    terms: &[u16],
    descriptors: &[u32],
    at: usize,
    fields: &[u8],
    c: DomainNo,
) -> Verdict
    requires { Lent image.now terms.now descriptors.now × Typed image.now fields.now × AtField image.now fields.now 1 × AtField image.now fields.now 2 × AtField image.now fields.now 3 }
    ensures { (Γ : List ℕ) → result ≡ judged at (rule_in image.now fields.now TermKind.keep (record { context = Γ; dom = c.0 })) }
{
    let t = own_type(fields);
    let label = descriptor_at_field(image, terms, descriptors, fields, 1);
    let value = type_at_field(image, terms, fields, 2);
    let body = type_at_field(image, terms, fields, 3);
    judge(
        at,
        is_kind(label, LABEL_TYPE) && same_type(first_type(label), value) && same_type(body, t),
        same_domain(second_domain(label), c),
    )
}

// An entry is 0 or names a pointcut.
fn entry_fits(image: &[u8], terms: &[u16], descriptors: &[u32], entry: u16) -> bool
    requires { Lent image.now terms.now descriptors.now × (entry ≤ length (records_of image.now).terms) }
    ensures { result ≡ all_of (cut_of (records_of image.now) descriptors.now) (as_child an_entry entry) }
{
    entry == 0
        || is_kind(
            type_descriptor(descriptors, stated_type(image, terms, entry_term(entry))),
            POINTCUT_TYPE,
        )
}

// Each entry is 0 or names a pointcut.
fn entries_fit(image: &[u8], terms: &[u16], descriptors: &[u32], fields: &[u8]) -> bool
    requires { Lent image.now terms.now descriptors.now × Entries image.now fields.now }
    ensures { result ≡ all_of (cut_of (records_of image.now) descriptors.now) (entry_terms fields.now) }
{
    for i in 0..entries_in(fields) {
        let entry = field(fields, FIRST_ENTRY + i);
        if !entry_fits(image, terms, descriptors, entry) {
            return false;
        }
    }
    true
}

// Match takes a stack and gives what both of its branches give; its entries name pointcuts, of any domain.
pub fn check_match(
    image: &[u8],
    terms: &[u16],
    descriptors: &[u32],
    at: usize,
    fields: &[u8],
) -> Verdict
    requires { Lent image.now terms.now descriptors.now × Typed image.now fields.now × AtField image.now fields.now 1 × AtField image.now fields.now 2 × AtField image.now fields.now 3 × Entries image.now fields.now }
    ensures { (p : Setting ℕ) → result ≡ judged at (rule_in image.now fields.now TermKind.match p) }
{
    let t = own_type(fields);
    let stack = descriptor_at_field(image, terms, descriptors, fields, 1);
    let first = type_at_field(image, terms, fields, 2);
    let second = type_at_field(image, terms, fields, 3);
    let fit = entries_fit(image, terms, descriptors, fields);
    judge(
        at,
        is_kind(stack, STACK_TYPE) && same_type(first, t) && same_type(second, t) && fit,
        true,
    )
}
