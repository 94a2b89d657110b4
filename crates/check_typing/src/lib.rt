// An inner crate: refusals 13 to 16, the typing pass (document 01, "Typing" and "Turned back at the gate"). It is linear in
// the image.
#![tactic(auto)]

ghost use Rattle.std.specs.Prelude.{◌≡◌, ◌/◌, ◌<◌, length};
ghost use Rattle.image.specs.Layout.{records_of};
ghost use Rattle.verdict.specs.Check.{typing};
ghost use Rattle.verdict.specs.Shape.{Shaped};
ghost use Rattle.read_records.specs.Tables.{Tables, Counted};
ghost use Rattle.read_terms.specs.Lent.{Lent, Masks, Terms, Types, TypeOffsets};
ghost use Rattle.check_typing.specs.Faults.{causes, verdict_at};
ghost use Rattle.check_typing.specs.Turns.{root_checked, root_plain, plain_at};

use crate::pass::CAUSES;
use check_rules::leaf::SCOPE_LENGTH;
use image::{DOMAIN_LIMIT, TERM_LIMIT, TYPE_LIMIT};
use read_records::numbers::{Counts, MAINLINE, TermNo};
use verdict::Verdict;

pub mod pass;

// The verdict that a fault stands for.
fn verdict_of(image: &[u8], terms: &[u16], fault: u64) -> Verdict
    requires { Terms image.now terms.now × (fault / causes < length (records_of image.now).terms) }
    ensures { result ≡ verdict_at (records_of image.now) fault }
{
    if fault == 0 {
        return Ok(());
    }
    let n = TermNo((fault / CAUSES % 65536) as u16);
    let at = read_terms::terms::term_place(image, terms, n);
    if fault % CAUSES == 1 {
        return Err(image::Refused {
            why: image::Refusal::UnboundVariable,
            place: at,
        });
    }
    if fault % CAUSES == 2 {
        return Err(image::Refused {
            why: image::Refusal::TypeRule,
            place: at,
        });
    }
    Err(image::Refused {
        why: image::Refusal::DomainRule,
        place: at,
    })
}

// The root is the last term. It is checked with no variables, at domain 0. No term is deeper than 64 (refusal 12), and a level
// binds nine variables at most, as a match does with eight entries (document 02, card 6), so a scope of 576 places is enough.
// A root without children is the whole program, and its rule is the answer.
fn check_root(
    image: &[u8],
    types: &[u16; TYPE_LIMIT],
    terms: &[u16; TERM_LIMIT],
    descriptors: &[u32; TYPE_LIMIT],
    count: usize,
    masks: &[u16; DOMAIN_LIMIT],
) -> Verdict
    requires { Lent image.now terms.now descriptors.now × (count ≡ length (records_of image.now).terms) × (0 < count) × Masks image.now masks.now × Shaped (records_of image.now) × TypeOffsets image.now types.now }
    ensures { result ≡ root_checked (records_of image.now) }
{
    let mut scope = [0u8; SCOPE_LENGTH];
    let root = TermNo((count - 1) as u16);
    if read_terms::terms::is_leaf(image, terms, root) {
        return check_rules::leaf::check_leaf(image, terms, descriptors, root, &scope, 0);
    }
    let fault = pass::check_here(
        image,
        terms,
        descriptors,
        root,
        MAINLINE,
        masks,
        &mut scope,
        0,
        types,
    );
    verdict_of(image, terms, fault)
}

// 16 for a term at an offset, from the leaves of its type.
fn plain_at(leaves: u8, at: usize) -> Verdict
    ensures { result ≡ plain_at leaves at }
{
    if 0 < leaves {
        return Ok(());
    }
    Err(image::Refused {
        why: image::Refusal::RootNotPlain,
        place: at,
    })
}

fn check_plain(
    image: &[u8],
    terms: &[u16],
    descriptors: &[u32],
    types: usize,
    count: usize,
) -> Verdict
    requires { Terms image.now terms.now × Types image.now descriptors.now × (types ≡ length (records_of image.now).types) × (count ≡ length (records_of image.now).terms) × (0 < count) }
    ensures { result ≡ root_plain (records_of image.now) }
{
    let root = TermNo((count - 1) as u16);
    let n = read_leaves::type_leaves(
        image,
        descriptors,
        types,
        read_terms::terms::stated_type(image, terms, root),
    );
    plain_at(n, read_terms::terms::term_place(image, terms, root))
}

// Refusals 13 to 16 of an image that has passed 9 to 12, with so many domains, types and terms, and the tables that hold them.
pub fn check_typing(
    image: &[u8],
    counts: Counts,
    doms: &[u16],
    types: &[u16; TYPE_LIMIT],
    terms: &[u16; TERM_LIMIT],
    descriptors: &[u32; TYPE_LIMIT],
) -> Verdict
    requires { Tables image.now doms.now terms.now descriptors.now × Counted image.now counts × Shaped (records_of image.now) × TypeOffsets image.now types.now }
    ensures { result ≡ typing (records_of image.now) }
{
    let mut masks = [0u16; DOMAIN_LIMIT];
    read_terms::domains::set_masks(image, doms, counts.domains, &mut masks);
    check_root(image, types, terms, descriptors, counts.terms, &masks)?;
    check_plain(image, terms, descriptors, counts.types, counts.terms)
}
