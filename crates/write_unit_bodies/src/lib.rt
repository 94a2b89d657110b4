// An inner crate: a copy of an image in which the bodies of low advice and low lowers are units (document 02, card 13). A record
// may be longer than its kind needs (card 1), so a body gives way by the number of its kind alone, and the copy is laid out as
// the image is.
#![tactic(auto)]

ghost use Rattle.std.specs.Prelude.{◌≡◌, ◌+◌, ◌<◌, length, set};
ghost use Rattle.image.specs.Kinds.{TermKind, term_row};
ghost use Rattle.image.specs.Layout.{records_of};
ghost use Rattle.image.specs.Types.{term_place};
ghost use Rattle.read_records.specs.Heads.{field_in};
ghost use Rattle.read_terms.specs.Lent.{Terms, Lent};
ghost use Rattle.read_terms.specs.Fields.{AtField};
ghost use Rattle.write_masks.specs.Masks.{in_mask};
ghost use Rattle.write_unit_bodies.specs.UnitBodies.{UnitBodies};
ghost use Rattle.write_unit_bodies.specs.WatchFields.{low_watch_in};

use read_records::fields::field_as;
use read_records::kinds;
use read_records::numbers::TermNo;
use read_terms::terms::{own_descriptor, term_fields, term_kind, term_place};
use read_terms::types::domain_of;
use write_masks::in_mask;

// The field of a lower that is its domain, and the field of a lower and of an advice that is the body.
const DOMAIN: usize = 1;

const BODY: usize = 2;

// The offset of a kind's number in its record, and the low byte of unit's number.
const KIND: usize = 2;

const UNIT_BYTE: u8 = kinds::UNIT as u8;

// A term of a kind, with these fields, is an advice with a low domain, or a lower with a low field.
fn is_low_advice_or_lower(kind: u16, fields: &[u8], descriptors: &[u32], high: u16) -> bool
    requires { (1 < length fields.now) × (field_in fields.now 0 < length descriptors.now) × (kind ≡ (term_row TermKind.lower).number → 3 < length fields.now) }
    ensures { result ≡ low_watch_in (in_mask high) kind fields.now descriptors.now }
{
    match kind {
        kinds::ADVICE => !in_mask(high, domain_of(own_descriptor(descriptors, fields))),
        kinds::LOWER => !in_mask(high, field_as(fields, DOMAIN)),
        _ => false,
    }
}

// The body that these fields name becomes a unit.
fn put_unit_body(image: &[u8], terms: &[u16], fields: &[u8], copy: &mut [u8])
    requires { Terms image.now terms.now × AtField image.now fields.now 2 × (length copy.old ≡ length image.now) }
    ensures { copy.new ≡ set copy.old (term_place (records_of image.now) (field_in fields.now 2) + 2) (term_row TermKind.unit).number }
{
    let at = term_place(image, terms, field_as(fields, BODY));
    copy[at + KIND] = UNIT_BYTE;
}

// The copy, with a unit in the place of the body of each low watch among the first terms.
pub fn copy_with_unit_bodies(
    image: &[u8],
    terms: &[u16],
    descriptors: &[u32],
    count: usize,
    high: u16,
    copy: &mut [u8],
)
    requires { Lent image.now terms.now descriptors.now × (count ≡ length (records_of image.now).terms) × (length copy.old ≡ length image.now) }
    ensures { UnitBodies (records_of image.now) (in_mask high) count image.now copy.new }
{
    copy.copy_from_slice(image);
    for i in 0..count {
        let n = TermNo(i as u16);
        let fields = term_fields(image, terms, n);
        if is_low_advice_or_lower(term_kind(image, terms, n), fields, descriptors, high) {
            put_unit_body(image, terms, fields, copy);
        }
    }
}
