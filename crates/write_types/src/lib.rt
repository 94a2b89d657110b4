// An inner crate: the table of types of an image that is written anew (document 02, card 11: "types in the order in which the
// terms so written first have them, each after its own parts, left to right"). Types stand in it by the numbers that they
// have in the image. Two lent tables hold it: the order of the types, and the other way round each type's place. A place is the
// number that the type has in the image that is written.
#![tactic(auto)]

ghost use Rattle.std.specs.Prelude.{◌≡◌, ◌≤◌, ◌<◌, length, get_or, take, eqb, not};
ghost use Rattle.image.specs.Layout.{records_of};
ghost use Rattle.image.specs.Types.{type_of};
ghost use Rattle.read_records.specs.Codes.{kind_codes};
ghost use Rattle.read_terms.specs.Lent.{TypeOffsets, IsType};
ghost use Rattle.image_written.specs.TypeParts.{parts_first};
ghost use Rattle.image_written.specs.Table.{enter, entered};
ghost use Rattle.write_types.specs.Entries.{no_place, Entries, entries_of, empty_table, TableOf, types_of, PartsThere, kept_number};

use image::TYPE_LIMIT;
use read_records::fields::field_as;
use read_records::numbers::TypeNo;
use read_records::table::CLASS_TYPE;
use read_terms::type_records::{type_fields, type_kind};
use write_fields::Fields;

// The place of a type that is not in the table.
pub const NO_PLACE: u16 = 65535;

// The place of a type.
fn place_of(places: &[u16], t: TypeNo) -> TypeNo
    requires { t.0 < length places.now }
    ensures { result.0 ≡ get_or places.now t.0 0 }
{
    TypeNo(places[usize::from(t.0)])
}

// A type is in the table.
fn is_entered(places: &[u16], t: TypeNo) -> bool
    requires { t.0 < length places.now }
    ensures { result ≡ not (eqb (get_or places.now t.0 0) no_place) }
{
    place_of(places, t).0 != NO_PLACE
}

// A type whose parts are in the table of n types is entered behind them, unless it is there.
// Kept: (a) `enter_type` hands it the tables that it takes.
fn enter_one(image: &[u8], places: &mut [u16], order: &mut [u16], n: usize, t: TypeNo) -> usize
    requires { Entries image.now n places.old order.old × IsType image.now t.0 × PartsThere image.now n order.old t.0 }
    ensures { Entries image.now result places.new order.new × (entries_of image.now result order.new ≡ enter (entries_of image.now n order.old) (type_of (records_of image.now) t.0)) }
{
    if is_entered(places, t) {
        return n;
    }
    places[usize::from(t.0)] = n as u16;
    order[n] = t.0;
    n + 1
}

// A type is entered into the table of n types behind its parts, each behind its own; the table then has so many types. Where it
// is there already, so are its parts. A part's number is lower.
// Kept: (a) docs/changes/0027-card-11.md names it, so it takes tables of any length that has room for the image's types.
pub fn enter_type(
    image: &[u8],
    codes: &[u32],
    types: &[u16],
    places: &mut [u16],
    order: &mut [u16],
    n: usize,
    t: TypeNo,
) -> usize
    requires { (codes.now ≡ kind_codes) × TypeOffsets image.now types.now × Entries image.now n places.old order.old × IsType image.now t.0 }
    ensures { Entries image.now result places.new order.new × (entries_of image.now result order.new ≡ entered (entries_of image.now n order.old) (parts_first (type_of (records_of image.now) t.0))) }
{
    if is_entered(places, t) {
        return n;
    }
    let fields = type_fields(image, types, t);
    let known = Fields::known(codes, type_kind(image, types, t), fields);
    let mut m = n;
    for i in 0..known.count {
        if known.class_of(i) == CLASS_TYPE {
            let part = field_as(fields, i);
            m = enter_type(image, codes, types, places, order, m, part);
        }
    }
    enter_one(image, places, order, m, t)
}

// The number of a field that names no child, in the image that is written: a type's place, and any other number as it is.
pub fn kept_number(places: &[u16], class: u32, v: u16) -> u16
    requires { class ≡ 0 → v < length places.now }
    ensures { result ≡ kept_number places.now class v }
{
    if class == CLASS_TYPE {
        place_of(places, TypeNo(v)).0
    } else {
        v
    }
}

// The order of the types, which are so many, and the other way round each type's place.
#[derive(Clone, Copy)]
pub struct TypeTable {
    pub places: [u16; TYPE_LIMIT],
    pub order: [u16; TYPE_LIMIT],
    pub count: usize,
}

impl TypeTable {
    pub fn empty() -> Self
        ensures { result ≡ empty_table }
    {
        Self {
            places: [NO_PLACE; TYPE_LIMIT],
            order: [0; TYPE_LIMIT],
            count: 0,
        }
    }

    // The types, in their order.
    pub fn entries(&self) -> &[u16]
        requires { self.now.count ≤ length self.now.order }
        ensures { result.now ≡ take self.now.count self.now.order }
    {
        &self.order[..self.count]
    }

    // A type is entered behind its parts, each behind its own.
    pub fn enter_type(&mut self, image: &[u8], codes: &[u32], types: &[u16], t: TypeNo)
        requires { (codes.now ≡ kind_codes) × TypeOffsets image.now types.now × TableOf image.now self.old × IsType image.now t.0 }
        ensures { TableOf image.now self.new × (types_of image.now self.new ≡ entered (types_of image.now self.old) (parts_first (type_of (records_of image.now) t.0))) }
    {
        self.count = enter_type(
            image,
            codes,
            types,
            &mut self.places,
            &mut self.order,
            self.count,
            t,
        );
    }

    // The number of a field that names no child, by the places of this table.
    pub fn kept_number(&self, class: u32, v: u16) -> u16
        requires { class ≡ 0 → v < length self.now.places }
        ensures { result ≡ kept_number self.now.places class v }
    {
        kept_number(&self.places, class, v)
    }
}
