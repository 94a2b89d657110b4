// 13, 14 and 15 at each term, parent before children, left first (document 01, "Turned back at the gate"). The check recurses
// over a term's children, and the term number falls. The answer on a term and those below it is a fault, one number that travels
// in a register: 0 where all pass, else the term whose rule refuses, and by which of the three.
ghost use Rattle.std.specs.Prelude.{◌≡◌, Ok, List, ℕ, ◌+◌, ◌*◌, ◌<◌, ◌≤◌, length, take};
ghost use Rattle.image.specs.Bytes.{number_at};
ghost use Rattle.image.specs.Layout.{records_of};
ghost use Rattle.image.specs.Types.{term_place};
ghost use Rattle.verdict.specs.Check.{checked};
ghost use Rattle.check_rules.specs.Judged.{rule_verdict};
ghost use Rattle.read_terms.specs.Lent.{Lent, TypeOffsets, Masks, IsTerm};
ghost use Rattle.check_rules.specs.Scopes.{setting_in};
ghost use Rattle.check_typing.specs.Faults.{causes, fault_at, verdict_at};
ghost use Rattle.check_typing.specs.Turns.{Capacity};

use check_dispatch::rule::check_rule;
use check_rules::leaf::{SCOPE_LENGTH, check_leaf};
use check_scopes::scope::{Setting, child_setting, moves_child};
use image::{DOMAIN_LIMIT, TERM_LIMIT, TYPE_LIMIT};
use image_refusals::refusal_number;
use read_records::numbers::{DomainNo, TermNo};
use read_terms::terms::{
    child_at_field, child_count, child_of, is_leaf, lead_of, term_fields, term_kind,
};
use verdict::Verdict;

// A fault is so many times a term's number, and the cause: refusals 13, 14 and 15 leave the remainders 1, 2 and 3.
// Kept: (b) a `Result` whose error has a term and a cause takes six bytes, and comes back through memory; an answer through memory
// at each term costs 6 % of the check (docs/changes/0046-call.md), and a number comes back in a register.
pub const CAUSES: u64 = 4;

const CAUSE_NUMBERS: u16 = CAUSES as u16;

// What the rule of term n alone comes to, as a fault.
fn fault_of(v: Verdict, n: TermNo) -> u64
    ensures { result ≡ fault_at v n.0 }
{
    match v {
        Ok(()) => 0,
        Err(refused) => u64::from(refusal_number(refused.why) % CAUSE_NUMBERS)
            + CAUSES * u64::from(n.0),
    }
}

// The children of a term that has passed its rule, each where it stands. The fields are asked for at each child: what the entries of a
// match take from their length would else be worked out before the loop, for every kind, and be kept through it.
#[cycle(check_here_check_subterms_check_term)]
fn check_subterms(
    image: &[u8],
    terms: &[u16; TERM_LIMIT],
    descriptors: &[u32; TYPE_LIMIT],
    n: TermNo,
    c: DomainNo,
    masks: &[u16; DOMAIN_LIMIT],
    scope: &mut [u8; SCOPE_LENGTH],
    len: usize,
    types: &[u16; TYPE_LIMIT],
) -> u64
    requires { Lent image.now terms.now descriptors.now × IsTerm image.now n.0 × Masks image.now masks.now × Capacity image.now scope.old len n.0 × TypeOffsets image.now types.now × ((Γ : List ℕ) → rule_verdict (records_of image.now) (record { context = Γ; dom = c.0 }) n.0 ≡ Ok tt) }
    ensures { (verdict_at (records_of image.now) result ≡ checked (records_of image.now) (setting_in scope.old len c.0) n.0) × (result ≤ causes * n.0 + 3) × (take len scope.new ≡ take len scope.old) × (length scope.new ≡ length scope.old) }
{
    let kind = term_kind(image, terms, n);
    let k = child_count(kind, term_fields(image, terms, n));
    let lead = lead_of(kind);
    let here = Setting { len, dom: c };
    for j in 0..k {
        let fields = term_fields(image, terms, n);
        let e = child_of(kind, fields, lead, j);
        let p = child_setting(
            image,
            types,
            terms,
            descriptors,
            scope,
            here,
            kind,
            fields,
            j,
        );
        let dom = p.dom;
        let r = check_term(
            image,
            terms,
            descriptors,
            e,
            dom,
            masks,
            scope,
            p.len,
            types,
        );
        if r != 0 {
            return r;
        }
    }
    0
}

// A term that is no constant and no variable, and the terms below it: its rule, then its children, each by a call of its own
// (document 01: "parent before children, left first"). Those of most kinds stand where the term does. Each level goes to a lower
// number, one deeper, and binds nine variables at most: the depth bounds the places of the scope that are used.
#[cycle(check_here_check_subterms_check_term)]
pub fn check_here(
    image: &[u8],
    terms: &[u16; TERM_LIMIT],
    descriptors: &[u32; TYPE_LIMIT],
    n: TermNo,
    c: DomainNo,
    masks: &[u16; DOMAIN_LIMIT],
    scope: &mut [u8; SCOPE_LENGTH],
    len: usize,
    types: &[u16; TYPE_LIMIT],
) -> u64
    requires { Lent image.now terms.now descriptors.now × IsTerm image.now n.0 × Masks image.now masks.now × Capacity image.now scope.old len n.0 × TypeOffsets image.now types.now × (35 < number_at image.now (term_place (records_of image.now) n.0)) }
    ensures { (verdict_at (records_of image.now) result ≡ checked (records_of image.now) (setting_in scope.old len c.0) n.0) × (result ≤ causes * n.0 + 3) × (take len scope.new ≡ take len scope.old) × (length scope.new ≡ length scope.old) }
{
    let v = check_rule(image, types, terms, descriptors, n, c, masks);
    if v.is_err() {
        return fault_of(v, n);
    }
    let kind = term_kind(image, terms, n);
    if moves_child(kind) {
        return check_subterms(image, terms, descriptors, n, c, masks, scope, len, types);
    }
    let fields = term_fields(image, terms, n);
    let k = child_count(kind, fields);
    let lead = lead_of(kind);
    for j in 0..k {
        let e = child_at_field(fields, lead + j);
        let r = check_term(image, terms, descriptors, e, c, masks, scope, len, types);
        if r != 0 {
            return r;
        }
    }
    0
}

// A term and the terms below it. A constant or a variable, which has none, is told by its rule here, where a call saves no
// registers yet: the root, which is not called from here, enters by check_here, so that the compiler keeps the two apart. Any
// other term is lent the image as the slice of all its bytes: its address and its length then travel as two words. Else the
// compiler copies both at each term as one word of 16 bytes, and reading the term's record waits for the copy.
#[cycle(check_here_check_subterms_check_term)]
pub fn check_term(
    image: &[u8],
    terms: &[u16; TERM_LIMIT],
    descriptors: &[u32; TYPE_LIMIT],
    n: TermNo,
    c: DomainNo,
    masks: &[u16; DOMAIN_LIMIT],
    scope: &mut [u8; SCOPE_LENGTH],
    len: usize,
    types: &[u16; TYPE_LIMIT],
) -> u64
    requires { Lent image.now terms.now descriptors.now × IsTerm image.now n.0 × Masks image.now masks.now × Capacity image.now scope.old len n.0 × TypeOffsets image.now types.now }
    ensures { (verdict_at (records_of image.now) result ≡ checked (records_of image.now) (setting_in scope.old len c.0) n.0) × (result ≤ causes * n.0 + 3) × (take len scope.new ≡ take len scope.old) × (length scope.new ≡ length scope.old) }
{
    if is_leaf(image, terms, n) {
        return fault_of(check_leaf(image, terms, descriptors, n, scope, len), n);
    }
    let whole = image.len();
    let bytes = &image[..whole];
    check_here(bytes, terms, descriptors, n, c, masks, scope, len, types)
}
