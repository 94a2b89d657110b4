// Refusal 10: the order of the domains, as sixteen rows of sixteen truths, and the first domain at fault in it.
ghost use Rattle.std.specs.Prelude.{◌≡◌, ◌≤◌, ◌<◌, length};
ghost use Rattle.image.specs.Limits.{domain_limit};
ghost use Rattle.image.specs.Layout.{records_of};
ghost use Rattle.verdict.specs.Domains.{bits};
ghost use Rattle.read_records.specs.Heads.{field_in};
ghost use Rattle.check_shape.specs.Faults.{gap_in, either_row, faulty, order_from, Rows};
ghost use Rattle.check_shape.specs.Records.{Domains};
ghost use Rattle.check_shape.specs.Checks.{domains_ordered};

use image::{DOMAIN_LIMIT, Refusal, Refused};
use read_records::numbers::{DomainNo, domain_offset};
use verdict::Verdict;

// The bits of a mask, lowest first.
fn row_of(mask: u16) -> [bool; DOMAIN_LIMIT]
    ensures { result ≡ bits domain_limit mask }
{
    let mut row = [false; DOMAIN_LIMIT];
    let mut m = mask;
    for q in 0..DOMAIN_LIMIT {
        row[q] = m % 2 == 1;
        m /= 2;
    }
    row
}

// The only field of a domain.
fn mask_of(fields: &[u8]) -> u16
    requires { 1 < length fields.now }
    ensures { result ≡ field_in fields.now 0 }
{
    read_records::fields::field(fields, 0)
}

// The order, an array that is handed over by value, as document 01 asks; the rows of absent domains are all false.
pub fn order_of(image: &[u8], doms: &[u16]) -> [[bool; DOMAIN_LIMIT]; DOMAIN_LIMIT]
    requires { Domains image.now doms.now }
    ensures { Rows (records_of image.now) result }
{
    let mut o = [[false; DOMAIN_LIMIT]; DOMAIN_LIMIT];
    for d in 0..doms.len() {
        let fields = read_records::reader::fields_at(
            image,
            domain_offset(doms, DomainNo(d as u16)),
        );
        o[d] = row_of(mask_of(fields));
    }
    o
}

// A domain with the row b names some domain, present or not, that one with the row a does not name.
fn gap_in(a: [bool; DOMAIN_LIMIT], b: [bool; DOMAIN_LIMIT]) -> bool
    ensures { result ≡ gap_in a b }
{
    let mut found = false;
    for f in 0..DOMAIN_LIMIT {
        found |= b[f] & !a[f];
    }
    found
}

// What either of two rows names.
fn either_row(a: [bool; DOMAIN_LIMIT], b: [bool; DOMAIN_LIMIT]) -> [bool; DOMAIN_LIMIT]
    ensures { result ≡ either_row a b }
{
    let mut row = [false; DOMAIN_LIMIT];
    for f in 0..DOMAIN_LIMIT {
        row[f] = a[f] | b[f];
    }
    row
}

// Domain d, of n, is at fault. What the other domains that it names name is gathered in one row, which is then searched
// once, for d and for a gap, and not again for each of them. Its own row is left out: it has d, and no gap to itself.
fn at_fault(o: [[bool; DOMAIN_LIMIT]; DOMAIN_LIMIT], n: usize, d: DomainNo) -> bool
    requires { d.0 < domain_limit }
    ensures { result ≡ faulty o n d.0 }
{
    let i = d.0 as usize;
    let own = o[i];
    if !own[i] {
        return true;
    }
    let mut named = [false; DOMAIN_LIMIT];
    for e in 0..DOMAIN_LIMIT {
        if own[e] {
            if n <= e {
                return true;
            }
            if e != i {
                named = either_row(named, o[e]);
            }
        }
    }
    named[i] || gap_in(own, named)
}

// Refused at the first domain at fault.
fn first_unordered(o: [[bool; DOMAIN_LIMIT]; DOMAIN_LIMIT], doms: &[u16]) -> Verdict
    requires { length doms.now ≤ domain_limit }
    ensures { result ≡ order_from doms.now o (length doms.now) 0 }
{
    for d in 0..doms.len() {
        let next = DomainNo(d as u16);
        if at_fault(o, doms.len(), next) {
            return Err(Refused {
                why: Refusal::DomainOrder,
                place: domain_offset(doms, next),
            });
        }
    }
    Ok(())
}

pub fn check_order(image: &[u8], doms: &[u16]) -> Verdict
    requires { Domains image.now doms.now }
    ensures { result ≡ domains_ordered (records_of image.now) }
{
    let o = order_of(image, doms);
    first_unordered(o, doms)
}
