// The rules of constants and variables, which have no children (document 01, "Typing").
ghost use Rattle.std.specs.Prelude.{◌≡◌, ℕ, ◌≤◌, ◌<◌, length, get_or};
ghost use Rattle.image.specs.Bytes.{number_at};
ghost use Rattle.image.specs.Kinds.{TypeKind, TermKind, type_row_of, term_row};
ghost use Rattle.image.specs.Layout.{records_of};
ghost use Rattle.image.specs.Types.{term_place};
ghost use Rattle.verdict.specs.Settings.{Setting};
ghost use Rattle.read_terms.specs.Lent.{Types, Lent, IsTerm};
ghost use Rattle.check_rules.specs.Scopes.{scope_length, setting_in};
ghost use Rattle.check_rules.specs.Rules.{rule_in};
ghost use Rattle.read_terms.specs.Fields.{Typed};
ghost use Rattle.check_rules.specs.Judged.{judged, rule_verdict};

use crate::judge::judge;
use image::{DEPTH_LIMIT, ENTRY_LIMIT};
use read_records::kinds;
use read_records::numbers::{TermNo, TypeNo};
use read_terms::terms::{
    other_field, own_descriptor, own_type, term_fields, term_kind, term_place,
};
use read_terms::types::{is_kind, same_type};
use verdict::Verdict;

// The places of a scope: no term is deeper than 64 (refusal 12), and a level binds nine variables at most, as a match does
// with eight entries and the rest of its stack (document 02, card 6).
pub const SCOPE_LENGTH: usize = DEPTH_LIMIT * (ENTRY_LIMIT + 1);

// The type in a place of the scope.
fn scope_type(scope: &[u8; SCOPE_LENGTH], i: usize) -> TypeNo
    requires { i < scope_length }
    ensures { result.0 ≡ get_or scope.now i 0 }
{
    TypeNo(u16::from(scope[i]))
}

// Variable k, 0 the innermost, is in the scope, and of the type that it has there.
fn check_variable(
    image: &[u8],
    scope: &[u8; SCOPE_LENGTH],
    len: usize,
    at: usize,
    fields: &[u8],
) -> Verdict
    requires { Typed image.now fields.now × (3 < length fields.now) × (len ≤ scope_length) }
    ensures { (c : ℕ) → result ≡ judged at (rule_in image.now fields.now TermKind.var (setting_in scope.now len c)) }
{
    let k = usize::from(other_field(fields));
    if len <= k {
        return Err(image::Refused {
            why: image::Refusal::UnboundVariable,
            place: at,
        });
    }
    let a = scope_type(scope, len - 1 - k);
    judge(at, same_type(a, own_type(fields)), true)
}

// How much higher the kind's number of a unit, truth or number is than that of its type.
const OVER_TYPE: u16 = kinds::UNIT - kinds::UNIT_TYPE;

// A unit, truth or number.
fn check_constant(image: &[u8], descriptors: &[u32], kind: u16, at: usize, fields: &[u8]) -> Verdict
    requires { Types image.now descriptors.now × Typed image.now fields.now × ((type_row_of TypeKind.unit).number ≤ kind) × (kind < (term_row TermKind.var).number) }
    ensures { (k : TermKind) → kind ≡ (term_row k).number → (p : Setting ℕ) → result ≡ judged at (rule_in image.now fields.now k p) }
{
    let own = own_descriptor(descriptors, fields);
    judge(at, is_kind(own, kind - OVER_TYPE), true)
}

// 13 and 14 at a constant or a variable.
pub fn check_leaf(
    image: &[u8],
    terms: &[u16],
    descriptors: &[u32],
    n: TermNo,
    scope: &[u8; SCOPE_LENGTH],
    len: usize,
) -> Verdict
    requires { Lent image.now terms.now descriptors.now × IsTerm image.now n.0 × (number_at image.now (term_place (records_of image.now) n.0) ≤ (term_row TermKind.var).number) × (len ≤ scope_length) }
    ensures { (c : ℕ) → result ≡ rule_verdict (records_of image.now) (setting_in scope.now len c) n.0 }
{
    let at = term_place(image, terms, n);
    let kind = term_kind(image, terms, n);
    let fields = term_fields(image, terms, n);
    if kind == kinds::VARIABLE {
        return check_variable(image, scope, len, at, fields);
    }
    check_constant(image, descriptors, kind, at, fields)
}
