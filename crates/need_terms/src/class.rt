// Refusal 19 (document 02, card 10), the lowest term of an image that may not stand where it does.
ghost use Rattle.std.specs.Prelude.{◌≡◌, length, get_or};
ghost use Rattle.image.specs.Kinds.{TermKind, term_row, body_of};
ghost use Rattle.image.specs.Layout.{records_of};
ghost use Rattle.read_terms.specs.Lent.{Terms, IsTerm};
ghost use Rattle.read_terms.specs.Fields.{children_in};
ghost use Rattle.image_needs.specs.Faults.{permits};
ghost use Rattle.need_terms.specs.GivenToChildren.{Part};
ghost use Rattle.need_terms.specs.First.{lowest_at};

use crate::child_in;
use read_records::kinds;
use read_records::numbers::TermNo;
use read_terms::terms::{child_count, term_fields, term_kind};

// Whether a term of a kind may stand over a first child of a kind; `outside` says that it stands outside the bodies of advice.
fn is_permitted(outside: bool, kind: u16, child: u16) -> bool
    ensures { (k j : TermKind) → kind ≡ (term_row k).number → child ≡ (term_row j).number → result ≡ permits outside k j }
{
    match kind {
        kinds::APPLY => false,
        kinds::CALL => false,
        kinds::MARK => outside,
        kinds::INSTALL => outside && child == kinds::ADVICE,
        _ => true,
    }
}

// The first child of a term with these fields; where it has none, the first of all terms.
fn first_child(kind: u16, fields: &[u8]) -> TermNo
    requires { Part kind fields.now }
    ensures { (k : TermKind) → kind ≡ (term_row k).number → result.0 ≡ get_or (children_in fields.now k) 0 0 }
{
    if child_count(kind, fields) == 0 {
        TermNo(0)
    } else {
        child_in(kind, fields, 0)
    }
}

// Where child j of a term of a kind stands.
fn is_outside(outside: bool, kind: u16, j: usize) -> bool
    ensures { (k : TermKind) → kind ≡ (term_row k).number → result ≡ Rattle.image_needs.specs.Faults.outside outside (body_of k j) }
{
    outside && !(kind == kinds::ADVICE && j == 1)
}

// The lowest term that may not stand where it does, among term n and the terms below it; the number past the last term if
// there is none.
pub fn lowest_fault(image: &[u8], terms: &[u16], none: TermNo, outside: bool, n: TermNo) -> TermNo
    requires { Terms image.now terms.now × IsTerm image.now n.0 × (none.0 ≡ length (records_of image.now).terms) }
    ensures { result.0 ≡ lowest_at (records_of image.now) outside n.0 }
{
    let kind = term_kind(image, terms, n);
    let fields = term_fields(image, terms, n);
    let ok = is_permitted(
        outside,
        kind,
        term_kind(image, terms, first_child(kind, fields)),
    );
    let k = child_count(kind, fields);
    let mut least = if ok { none } else { n };
    for j in 0..k {
        let e = child_in(kind, fields, j);
        let f = lowest_fault(image, terms, none, is_outside(outside, kind, j), e);
        least = TermNo(least.0.min(f.0));
    }
    least
}
