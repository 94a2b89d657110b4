// An inner crate: refusals 9 to 12, once the records are laid out (document 01, "Turned back at the gate"). Each pass is
// linear in the image.
#![tactic(auto)]

ghost use Rattle.std.specs.Prelude.{◌≡◌, ◌<◌, ◌&&◌, length, ltb};
ghost use Rattle.image.specs.Layout.{records_of};
ghost use Rattle.verdict.specs.Shape.{shape};
ghost use Rattle.read_records.specs.Codes.{kind_codes};
ghost use Rattle.check_uses.specs.Marks.{all_marks};
ghost use Rattle.check_shape.specs.Records.{Domains, Terms, Marked};
ghost use Rattle.check_shape.specs.Checks.{terms_right, passes};
ghost use Rattle.check_shape.specs.Counted.{Counted};

use check_uses::marks::mark_of;
use check_uses::uses::first_misused;
use image::{Refusal, Refused};
use read_records::numbers::{Counts, TermNo, term_offset};
use verdict::Verdict;

pub mod depths;
pub mod descent;
pub mod order;

fn none_empty(n: Counts) -> bool
    ensures { result ≡ (ltb 0 n.domains && (ltb 0 n.types && ltb 0 n.terms)) }
{
    0 < n.domains && (0 < n.types && 0 < n.terms)
}

// Refusals 11 and 12, by the marks of the terms. Where each term but the root is used once, none is deeper than the root is
// high, so the depths are worked out only if the root is too high.
fn check_terms(image: &[u8], kinds: &[u32], terms: &[u16], marks: &[u8]) -> Verdict
    requires { (kinds.now ≡ kind_codes) × Terms image.now terms.now × (0 < length terms.now) × Marked image.now marks.now }
    ensures { result ≡ terms_right (records_of image.now) }
{
    let root = TermNo((terms.len() - 1) as u16);
    let first = first_misused(marks, root);
    if first.0 < root.0 {
        return Err(Refused {
            why: Refusal::UseCount,
            place: term_offset(terms, first),
        });
    }
    if mark_of(marks, root) <= depths::DEEPEST {
        return Ok(());
    }
    descent::check_depths(image, kinds, terms)
}

// Refusals 10 to 12, with the offsets of the domains and of the terms.
fn check_passes(image: &[u8], kinds: &[u32], doms: &[u16], terms: &[u16], marks: &[u8]) -> Verdict
    requires { (kinds.now ≡ kind_codes) × Domains image.now doms.now × Terms image.now terms.now × (0 < length terms.now) × Marked image.now marks.now }
    ensures { result ≡ passes (records_of image.now) }
{
    order::check_order(image, doms)?;
    check_terms(image, kinds, terms, marks)
}

// Refusals 9 to 12, with the tables that hold the offsets in their first places.
pub fn check_shape(
    image: &[u8],
    kinds: &[u32],
    counts: Counts,
    doms: &[u16],
    terms: &[u16],
    marks: &[u8],
) -> Verdict
    requires { (kinds.now ≡ kind_codes) × Counted image.now counts doms.now terms.now × (marks.now ≡ all_marks image.now) }
    ensures { result ≡ shape (records_of image.now) (length image.now) }
{
    if !none_empty(counts) {
        return Err(Refused {
            why: Refusal::EmptySection,
            place: image.len(),
        });
    }
    let d = counts.domains;
    let t = counts.terms;
    check_passes(image, kinds, &doms[..d], &terms[..t], marks)
}
