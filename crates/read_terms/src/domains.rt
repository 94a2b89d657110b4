// The order of the domains: a table of their masks, filled once, and ≤ read off it.
ghost use Rattle.std.specs.Prelude.{◌≡◌, ◌<◌, ◌/◌, ◌%◌, ◌^◌, length, get_or, set, replicate, eqb};
ghost use Rattle.image.specs.Limits.{domain_limit};
ghost use Rattle.image.specs.Layout.{records_of};
ghost use Rattle.verdict.specs.Domains.{masks};
ghost use Rattle.read_terms.specs.Lent.{Domains, Masks};
ghost use Rattle.read_terms.specs.Masks.{bit_of};

use image::DOMAIN_LIMIT;
use read_records::numbers::DomainNo;

// The most domains of an image, as wide as a domain number.
pub const DOMAINS: u16 = DOMAIN_LIMIT as u16;

// Bit q of a mask.
pub fn bit(mask: u16, q: DomainNo) -> bool
    requires { q.0 < domain_limit }
    ensures { result ≡ eqb (mask / 2 ^ q.0 % 2) 1 }
{
    (mask >> q.0) % 2 == 1
}

// The mask of a domain in the table.
fn mask_at(masks: &[u16; DOMAIN_LIMIT], d: DomainNo) -> u16
    requires { d.0 < domain_limit }
    ensures { result ≡ get_or masks.now d.0 0 }
{
    masks[usize::from(d.0)]
}

// d ≤ q.
#[tactic(auto, unfolding(crate::specs::Masks::bit_of))]
pub fn leq(masks: &[u16; DOMAIN_LIMIT], d: DomainNo, q: DomainNo) -> bool
    ensures { result ≡ bit_of masks.now d.0 q.0 }
{
    d.0 < DOMAINS && q.0 < DOMAINS && bit(mask_at(masks, d), q)
}

// The mask of a domain, which its record says: its one field.
fn mask_of(image: &[u8], doms: &[u16], d: DomainNo) -> u16
    requires { Domains image.now doms.now × (d.0 < length (records_of image.now).domains) }
    ensures { result ≡ get_or (masks (records_of image.now)) d.0 0 }
{
    let at = read_records::numbers::domain_offset(doms, d);
    read_records::words::word(read_records::reader::fields_at(image, at), 0)
}

fn set_mask(table: &mut [u16; DOMAIN_LIMIT], d: DomainNo, mask: u16)
    requires { d.0 < domain_limit }
    ensures { table.new ≡ set table.old d.0 mask }
{
    table[usize::from(d.0)] = mask;
}

// Fills the table, which is 0 everywhere, with the masks of the domains.
pub fn set_masks(image: &[u8], doms: &[u16], count: usize, table: &mut [u16; DOMAIN_LIMIT])
    requires { Domains image.now doms.now × (count ≡ length (records_of image.now).domains) × (table.old ≡ replicate domain_limit 0) }
    ensures { Masks image.now table.new }
{
    for i in 0..count {
        let d = DomainNo(i as u16);
        let mask = mask_of(image, doms, d);
        set_mask(table, d, mask);
    }
}
