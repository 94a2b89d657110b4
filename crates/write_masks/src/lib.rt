// An inner crate: sets of high domains, as masks (document 02, card 13). Such a set has domain 0 and, with each member, every domain
// above it.
#![tactic(auto)]

ghost use Rattle.std.specs.Prelude.{◌≡◌, not, ◌&&◌, ◌||◌, leb};
ghost use Rattle.laws.specs.Tests.{any_below};
ghost use Rattle.image.specs.Limits.{domain_limit};
ghost use Rattle.read_terms.specs.Masks.{bit_of};
ghost use Rattle.write_masks.specs.Masks.{in_mask, wrong_by};

use image::DOMAIN_LIMIT;
use read_records::numbers::{DomainNo, MAINLINE};
use read_terms::domains::{DOMAINS, bit, leq};

// A mask names domain q.
pub fn in_mask(mask: u16, q: DomainNo) -> bool
    ensures { result ≡ in_mask mask q.0 }
{
    q.0 < DOMAINS && bit(mask, q)
}

// Domain q is above d, and not in the set.
fn is_lacking(masks: &[u16; DOMAIN_LIMIT], mask: u16, d: DomainNo, q: DomainNo) -> bool
    ensures { result ≡ (bit_of masks.now d.0 q.0 && not (in_mask mask q.0)) }
{
    leq(masks, d, q) && !in_mask(mask, q)
}

// The set lacks a domain above d.
fn lacks_above(masks: &[u16; DOMAIN_LIMIT], mask: u16, d: DomainNo) -> bool
    ensures { result ≡ any_below domain_limit (λ q. bit_of masks.now d.0 q && not (in_mask mask q)) }
{
    (0..DOMAINS).any(|q| is_lacking(masks, mask, d, DomainNo(q)))
}

// Domain d is in the set, and absent or without one that is above it.
fn is_wrong_member(masks: &[u16; DOMAIN_LIMIT], count: usize, mask: u16, d: DomainNo) -> bool
    ensures { result ≡ (in_mask mask d.0 && (leb count d.0 || any_below domain_limit (λ q. bit_of masks.now d.0 q && not (in_mask mask q)))) }
{
    in_mask(mask, d) && (count <= usize::from(d.0) || lacks_above(masks, mask, d))
}

fn has_wrong_member(masks: &[u16; DOMAIN_LIMIT], count: usize, mask: u16) -> bool
    ensures { result ≡ any_below domain_limit (λ d. in_mask mask d && (leb count d || any_below domain_limit (λ q. bit_of masks.now d q && not (in_mask mask q)))) }
{
    (0..DOMAINS).any(|d| is_wrong_member(masks, count, mask, DomainNo(d)))
}

// The mask is no set of high domains of these, of which there are so many.
pub fn is_wrong(masks: &[u16; DOMAIN_LIMIT], count: usize, mask: u16) -> bool
    ensures { result ≡ wrong_by (bit_of masks.now) count mask }
{
    !in_mask(mask, MAINLINE) || has_wrong_member(masks, count, mask)
}
