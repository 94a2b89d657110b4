// The rules of the terms that compute: sequence, print, if, pairs, functions, arithmetic and frame byte (document 01, "Typing").
ghost use Rattle.std.specs.Prelude.{◌≡◌, ℕ, List};
ghost use Rattle.image.specs.Kinds.{TermKind, type_row_of};
ghost use Rattle.verdict.specs.Settings.{Setting};
ghost use Rattle.verdict.specs.Rules.{op_gives};
ghost use Rattle.read_terms.specs.Lent.{Lent};
ghost use Rattle.check_rules.specs.Rules.{rule_in};
ghost use Rattle.read_terms.specs.Fields.{Typed, AtField};
ghost use Rattle.check_rules.specs.Judged.{judged};

use check_rules::judge::judge;
use read_records::kinds::{FUNCTION_TYPE, NUMBER_TYPE, PAIR_TYPE, TRUTH_TYPE, UNIT_TYPE};
use read_records::numbers::DomainNo;
use read_terms::terms::{
    descriptor_at_field, other_field, own_descriptor, own_type, type_at_field,
};
use read_terms::types::{
    first_type, is_kind, same_domain, same_type, second_domain, second_type, third_type,
};
use verdict::Verdict;

// Kept: (d) one function for the rules of sequence and split, or of print and byte, would take the kinds that they differ in, and
// its contract would name both rules beside those kinds; each rule of the calculus has a function here.
// Sequence: the first is unit, the second gives the type.
pub fn check_sequence(
    image: &[u8],
    terms: &[u16],
    descriptors: &[u32],
    at: usize,
    fields: &[u8],
) -> Verdict
    requires { Lent image.now terms.now descriptors.now × Typed image.now fields.now × AtField image.now fields.now 1 × AtField image.now fields.now 2 }
    ensures { (p : Setting ℕ) → result ≡ judged at (rule_in image.now fields.now TermKind.seq p) }
{
    let t = own_type(fields);
    let first = descriptor_at_field(image, terms, descriptors, fields, 1);
    let second = type_at_field(image, terms, fields, 2);
    judge(at, is_kind(first, UNIT_TYPE) && same_type(second, t), true)
}

// Print takes a number and gives unit.
pub fn check_print(
    image: &[u8],
    terms: &[u16],
    descriptors: &[u32],
    at: usize,
    fields: &[u8],
) -> Verdict
    requires { Lent image.now terms.now descriptors.now × Typed image.now fields.now × AtField image.now fields.now 1 }
    ensures { (p : Setting ℕ) → result ≡ judged at (rule_in image.now fields.now TermKind.print p) }
{
    let own = own_descriptor(descriptors, fields);
    let first = descriptor_at_field(image, terms, descriptors, fields, 1);
    judge(
        at,
        is_kind(own, UNIT_TYPE) && is_kind(first, NUMBER_TYPE),
        true,
    )
}

// If: a test, and two branches of its type.
pub fn check_choice(
    image: &[u8],
    terms: &[u16],
    descriptors: &[u32],
    at: usize,
    fields: &[u8],
) -> Verdict
    requires { Lent image.now terms.now descriptors.now × Typed image.now fields.now × AtField image.now fields.now 1 × AtField image.now fields.now 2 × AtField image.now fields.now 3 }
    ensures { (p : Setting ℕ) → result ≡ judged at (rule_in image.now fields.now TermKind.ite p) }
{
    let t = own_type(fields);
    let first = descriptor_at_field(image, terms, descriptors, fields, 1);
    let second = type_at_field(image, terms, fields, 2);
    let third = type_at_field(image, terms, fields, 3);
    judge(
        at,
        is_kind(first, TRUTH_TYPE) && same_type(second, t) && same_type(third, t),
        true,
    )
}

// A pair has the types of its parts.
pub fn check_pair(
    image: &[u8],
    terms: &[u16],
    descriptors: &[u32],
    at: usize,
    fields: &[u8],
) -> Verdict
    requires { Lent image.now terms.now descriptors.now × Typed image.now fields.now × AtField image.now fields.now 1 × AtField image.now fields.now 2 }
    ensures { (p : Setting ℕ) → result ≡ judged at (rule_in image.now fields.now TermKind.pair p) }
{
    let own = own_descriptor(descriptors, fields);
    let first = type_at_field(image, terms, fields, 1);
    let second = type_at_field(image, terms, fields, 2);
    judge(
        at,
        is_kind(own, PAIR_TYPE)
            && same_type(first_type(own), first)
            && same_type(second_type(own), second),
        true,
    )
}

// Split takes a pair; its body gives the type.
pub fn check_split(
    image: &[u8],
    terms: &[u16],
    descriptors: &[u32],
    at: usize,
    fields: &[u8],
) -> Verdict
    requires { Lent image.now terms.now descriptors.now × Typed image.now fields.now × AtField image.now fields.now 1 × AtField image.now fields.now 2 }
    ensures { (p : Setting ℕ) → result ≡ judged at (rule_in image.now fields.now TermKind.split p) }
{
    let t = own_type(fields);
    let first = descriptor_at_field(image, terms, descriptors, fields, 1);
    let second = type_at_field(image, terms, fields, 2);
    judge(at, is_kind(first, PAIR_TYPE) && same_type(second, t), true)
}

// A function goes to the type of its body.
pub fn check_function(
    image: &[u8],
    terms: &[u16],
    descriptors: &[u32],
    at: usize,
    fields: &[u8],
) -> Verdict
    requires { Lent image.now terms.now descriptors.now × Typed image.now fields.now × AtField image.now fields.now 1 }
    ensures { (p : Setting ℕ) → result ≡ judged at (rule_in image.now fields.now TermKind.fun p) }
{
    let own = own_descriptor(descriptors, fields);
    let first = type_at_field(image, terms, fields, 1);
    judge(
        at,
        is_kind(own, FUNCTION_TYPE) && same_type(third_type(own), first),
        true,
    )
}

// Apply: a function at the current domain, and what it takes.
pub fn check_apply(
    image: &[u8],
    terms: &[u16],
    descriptors: &[u32],
    at: usize,
    fields: &[u8],
    c: DomainNo,
) -> Verdict
    requires { Lent image.now terms.now descriptors.now × Typed image.now fields.now × AtField image.now fields.now 1 × AtField image.now fields.now 2 }
    ensures { (Γ : List ℕ) → result ≡ judged at (rule_in image.now fields.now TermKind.app (record { context = Γ; dom = c.0 })) }
{
    let t = own_type(fields);
    let first = descriptor_at_field(image, terms, descriptors, fields, 1);
    let second = type_at_field(image, terms, fields, 2);
    judge(
        at,
        is_kind(first, FUNCTION_TYPE)
            && same_type(first_type(first), second)
            && same_type(third_type(first), t),
        same_domain(second_domain(first), c),
    )
}

// The kind of type that arithmetic gives: a number for plus and minus, truth for less and equal.
fn result_kind(f: u16) -> u16
    ensures { result ≡ (type_row_of (op_gives f)).number }
{
    if f < 2 { NUMBER_TYPE } else { TRUTH_TYPE }
}

// Arithmetic takes two numbers, which stand behind its operation.
pub fn check_arithmetic(
    image: &[u8],
    terms: &[u16],
    descriptors: &[u32],
    at: usize,
    fields: &[u8],
) -> Verdict
    requires { Lent image.now terms.now descriptors.now × Typed image.now fields.now × AtField image.now fields.now 2 × AtField image.now fields.now 3 }
    ensures { (p : Setting ℕ) → result ≡ judged at (rule_in image.now fields.now TermKind.arith p) }
{
    let own = own_descriptor(descriptors, fields);
    let first = descriptor_at_field(image, terms, descriptors, fields, 2);
    let second = descriptor_at_field(image, terms, descriptors, fields, 3);
    judge(
        at,
        is_kind(own, result_kind(other_field(fields)))
            && is_kind(first, NUMBER_TYPE)
            && is_kind(second, NUMBER_TYPE),
        true,
    )
}

// Frame byte takes a number and gives one.
pub fn check_byte(
    image: &[u8],
    terms: &[u16],
    descriptors: &[u32],
    at: usize,
    fields: &[u8],
) -> Verdict
    requires { Lent image.now terms.now descriptors.now × Typed image.now fields.now × AtField image.now fields.now 1 }
    ensures { (p : Setting ℕ) → result ≡ judged at (rule_in image.now fields.now TermKind.byte p) }
{
    let own = own_descriptor(descriptors, fields);
    let first = descriptor_at_field(image, terms, descriptors, fields, 1);
    judge(
        at,
        is_kind(own, NUMBER_TYPE) && is_kind(first, NUMBER_TYPE),
        true,
    )
}
