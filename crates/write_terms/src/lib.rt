// An inner crate: the walk over the terms of an image that is written anew (document 02, card 11: "types in the order in which
// the terms so written first have them"). It enters the types of the terms, and recurses over the fields of a term that name
// its children; the term number falls.
#![tactic(auto)]

ghost use Rattle.std.specs.Prelude.{◌≡◌};
ghost use Rattle.image.specs.Layout.{records_of};
ghost use Rattle.read_records.specs.Codes.{kind_codes};
ghost use Rattle.read_terms.specs.Lent.{Terms, TypeOffsets, IsTerm};
ghost use Rattle.image_written.specs.Table.{entered, types_in};
ghost use Rattle.image_written.proofs.Fronts.{tree_at};
ghost use Rattle.write_types.specs.Entries.{Entries, entries_of};

use read_records::fields::field;
use read_records::numbers::TermNo;
use read_terms::terms::{own_type, term_fields, term_kind};
use write_fields::{Fields, child_of};
use write_types::enter_type;

// The types of a term and of those below it are entered into the table of n types: its children's, left to right, then its
// own. The table then has so many types.
// Kept: (a) docs/changes/0027-card-11.md names it, so it takes tables of any length that has room for the image's types.
pub fn enter_term(
    image: &[u8],
    codes: &[u32],
    types: &[u16],
    terms: &[u16],
    places: &mut [u16],
    order: &mut [u16],
    n: usize,
    e: TermNo,
) -> usize
    requires { (codes.now ≡ kind_codes) × TypeOffsets image.now types.now × Terms image.now terms.now × Entries image.now n places.old order.old × IsTerm image.now e.0 }
    ensures { Entries image.now result places.new order.new × (entries_of image.now result order.new ≡ entered (entries_of image.now n order.old) (types_in (tree_at (records_of image.now) e.0))) }
{
    let fields = term_fields(image, terms, e);
    let known = Fields::known(codes, term_kind(image, terms, e), fields);
    let mut m = n;
    for i in 0..known.count {
        if let Some(child) = child_of(known.class_of(i), field(fields, i)) {
            m = enter_term(image, codes, types, terms, places, order, m, child);
        }
    }
    enter_type(image, codes, types, places, order, m, own_type(fields))
}
