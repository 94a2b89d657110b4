// Refusal 12 of an image whose root is too high: the depth of each term is set in one pass, from the root down.
ghost use Rattle.std.specs.Prelude.{◌≡◌, ◌<◌, length, get_or, replicate};
ghost use Rattle.image.specs.Limits.{term_limit};
ghost use Rattle.image.specs.Kinds.{an_entry};
ghost use Rattle.image.specs.Records.{as_child};
ghost use Rattle.image.specs.Layout.{records_of};
ghost use Rattle.verdict.specs.Shape.{set_all};
ghost use Rattle.read_records.specs.Codes.{kind_codes};
ghost use Rattle.read_records.specs.Heads.{side_of, entries_of, children_of, Fitting};
ghost use Rattle.check_uses.specs.Marks.{Lower};
ghost use Rattle.check_shape.specs.Records.{children_of_term, Terms};
ghost use Rattle.check_shape.specs.Depths.{depth_below, capped_from};
ghost use Rattle.check_shape.specs.Checks.{no_term_deep};

use crate::depths::TOO_DEEP;
use check_uses::marks::{mark_of, one_more, set_mark};
use image::TERM_LIMIT;
use read_records::numbers::{TermNo, term_offset};
use verdict::Verdict;

// The depth d for each child side by side in a term's fields.
fn mark_side(fields: &[u8], code: u32, d: u8, depths: &mut [u8])
    requires { Fitting code fields.now × Lower (length depths.old) (side_of code fields.now) }
    ensures { depths.new ≡ set_all (side_of code fields.now) d depths.old }
{
    let first = read_records::table::field_count(code);
    let count = read_records::table::child_count(code, fields.len());
    for j in 0..count {
        let e = read_records::fields::field_as(fields, first + j);
        set_mark(depths, e, d);
    }
}

// The same for the child that an entry names (document 02, card 6); 0 names none.
fn mark_entry(entry: u16, d: u8, depths: &mut [u8])
    requires { Lower (length depths.old) (as_child an_entry entry) }
    ensures { depths.new ≡ set_all (as_child an_entry entry) d depths.old }
{
    if entry != 0 {
        let e = read_records::numbers::entry_term(entry);
        set_mark(depths, e, d);
    }
}

// The same for the entries in a term's fields, of which only a match has any.
fn mark_entries(fields: &[u8], code: u32, d: u8, depths: &mut [u8])
    requires { Fitting code fields.now × Lower (length depths.old) (entries_of code fields.now) }
    ensures { depths.new ≡ set_all (entries_of code fields.now) d depths.old }
{
    let before = read_records::table::field_count(code);
    let first = before + read_records::table::child_count(code, fields.len());
    let count = read_records::table::entry_count(code, fields.len());
    for j in 0..count {
        mark_entry(read_records::fields::field(fields, first + j), d, depths);
    }
}

// The same for all children in a term's fields, in their order.
fn mark_children(fields: &[u8], code: u32, d: u8, depths: &mut [u8])
    requires { Fitting code fields.now × Lower (length depths.old) (children_of code fields.now) }
    ensures { depths.new ≡ set_all (children_of code fields.now) d depths.old }
{
    mark_side(fields, code, d, depths);
    mark_entries(fields, code, d, depths);
}

// The same for the children of term n, whose own depth is set.
fn mark_term(image: &[u8], kinds: &[u32], terms: &[u16], n: TermNo, depths: &mut [u8])
    requires { (kinds.now ≡ kind_codes) × Terms image.now terms.now × (length depths.old ≡ length terms.now) × (n.0 < length terms.now) }
    ensures { depths.new ≡ set_all (children_of_term image.now (get_or terms.now n.0 0)) (depth_below depths.old n.0) depths.old }
{
    let at = term_offset(terms, n);
    let code = read_records::table::known_code(kinds, read_records::words::kind_at(image, at));
    let d = one_more(TOO_DEEP, mark_of(depths, n));
    let fields = read_records::reader::fields_at(image, at);
    mark_children(fields, code, d, depths);
}

// The depth of each term.
fn mark_terms(image: &[u8], kinds: &[u32], terms: &[u16], depths: &mut [u8])
    requires { (kinds.now ≡ kind_codes) × Terms image.now terms.now × (length depths.old ≡ length terms.now) }
    ensures { depths.new ≡ capped_from (records_of image.now) (length terms.now) depths.old }
{
    for i in (0..terms.len()).rev() {
        mark_term(image, kinds, terms, TermNo(i as u16), depths);
    }
}

// Refusal 12, with a lent array of zeros.
fn check_depths_in(image: &[u8], kinds: &[u32], terms: &[u16], depths: &mut [u8]) -> Verdict
    requires { (kinds.now ≡ kind_codes) × Terms image.now terms.now × (0 < length terms.now) × (depths.old ≡ replicate term_limit 0) }
    ensures { result ≡ no_term_deep (records_of image.now) }
{
    let n = terms.len();
    let root = TermNo((n - 1) as u16);
    set_mark(depths, root, 1);
    mark_terms(image, kinds, terms, &mut depths[..n]);
    crate::depths::first_deep(depths, terms, TermNo(n as u16))
}

// Refusal 12.
pub fn check_depths(image: &[u8], kinds: &[u32], terms: &[u16]) -> Verdict
    requires { (kinds.now ≡ kind_codes) × Terms image.now terms.now × (0 < length terms.now) }
    ensures { result ≡ no_term_deep (records_of image.now) }
{
    let mut depths = [0u8; TERM_LIMIT];
    check_depths_in(image, kinds, terms, &mut depths)
}
