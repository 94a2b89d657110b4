// An inner crate: the domains and the types of an image written anew (document 02, card 11), each section as one loop.
#![tactic(auto)]

ghost use Rattle.std.specs.Prelude.{◌≡◌, ◌+◌, ◌≤◌, length};
ghost use Rattle.image.specs.Layout.{records_of};
ghost use Rattle.base_bytes.specs.Bytes.{over};
ghost use Rattle.read_records.specs.Codes.{kind_codes};
ghost use Rattle.read_terms.specs.Lent.{TypeOffsets, IsType};
ghost use Rattle.image_written.specs.Records.{bytes};
ghost use Rattle.image_written.specs.Written.{domain_record};
ghost use Rattle.write_types.specs.Entries.{TableOf, types_of};
ghost use Rattle.write_sections.specs.Sections.{domain_bytes, type_bytes, type_size, WroteType};

use read_records::fields::field;
use read_records::numbers::TypeNo;
use read_terms::type_records::{type_fields, type_kind};
use write_fields::Fields;
use write_records::{FIELD_LIMIT, put_record};
use write_types::TypeTable;

// The kind of a domain's record (document 01, "The image").
const DOMAIN: u16 = 1;

// A domain's record, which has its mask alone, and the offset behind it.
fn put_domain(out: &mut [u8], at: usize, mask: u16) -> usize
    requires { at + 6 ≤ length out.old }
    ensures { (result ≡ at + 6) × (out.new ≡ over at (bytes (domain_record mask)) out.old) }
{
    put_record(out, at, DOMAIN, &[mask])
}

// The domains of these masks, at the front of the output, and the offset behind them.
pub fn write_domains(masks: &[u16], out: &mut [u8]) -> usize
    requires { length (domain_bytes masks.now) ≤ length out.old }
    ensures { (result ≡ length (domain_bytes masks.now)) × (out.new ≡ over 0 (domain_bytes masks.now) out.old) }
{
    let mut at = 0;
    for mask in masks {
        at = put_domain(out, at, *mask);
    }
    at
}

// A type's record, its lower types by their places, and the offset behind it.
fn write_type(
    image: &[u8],
    codes: &[u32],
    types: &[u16],
    table: &TypeTable,
    out: &mut [u8],
    at: usize,
    t: TypeNo,
) -> usize
    requires { (codes.now ≡ kind_codes) × TypeOffsets image.now types.now × IsType image.now t.0 × (length (records_of image.now).types ≤ length table.now.places) × (at + type_size image.now t.0 ≤ length out.old) }
    ensures { (result ≡ at + type_size image.now t.0) × WroteType image.now table.now.places t.0 at out.old out.new }
{
    let fields = type_fields(image, types, t);
    let kind = type_kind(image, types, t);
    let known = Fields::known(codes, kind, fields);
    let mut numbers = [0u16; FIELD_LIMIT];
    for i in 0..known.count {
        numbers[i] = table.kept_number(known.class_of(i), field(fields, i));
    }
    put_record(out, at, kind, &numbers[..known.count])
}

// The types of a table, in their order, and the offset behind them.
pub fn write_types(
    image: &[u8],
    codes: &[u32],
    types: &[u16],
    table: &TypeTable,
    out: &mut [u8],
    start: usize,
) -> usize
    requires { (codes.now ≡ kind_codes) × TypeOffsets image.now types.now × TableOf image.now table.now × (start + length (type_bytes (types_of image.now table.now)) ≤ length out.old) }
    ensures { (result ≡ start + length (type_bytes (types_of image.now table.now))) × (out.new ≡ over start (type_bytes (types_of image.now table.now)) out.old) }
{
    let mut at = start;
    for t in table.entries() {
        at = write_type(image, codes, types, table, out, at, TypeNo(*t));
    }
    at
}
