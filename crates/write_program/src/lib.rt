// An inner crate: the terms of an image written anew, by a walk from a term that writes it after its children, left to right
// (document 02, card 11). It recurses over the fields of a term that name its children; the term number falls. No kind is
// named: the code of a record's kind says what each field is.
#![tactic(auto)]

ghost use Rattle.std.specs.Prelude.{◌≡◌, ◌≤◌, length};
ghost use Rattle.image.specs.Layout.{records_of};
ghost use Rattle.read_records.specs.Codes.{kind_codes};
ghost use Rattle.read_terms.specs.Lent.{Terms, IsTerm};
ghost use Rattle.write_program.specs.Writing.{behind, Capacity, Wrote};

use read_records::fields::field;
use read_records::numbers::TermNo;
use read_terms::terms::{term_fields, term_kind};
use write_fields::{Fields, as_field, child_of};
use write_records::{Done, FIELD_LIMIT};
use write_types::kept_number;

// A term and those below it, written behind what is done: its children, left to right, then the term itself. A field that
// names a child has the number of the last term that was written then.
pub fn write_term(
    image: &[u8],
    codes: &[u32],
    terms: &[u16],
    places: &[u16],
    out: &mut [u8],
    done: Done,
    e: TermNo,
) -> Done
    requires { (codes.now ≡ kind_codes) × Terms image.now terms.now × IsTerm image.now e.0 × (length (records_of image.now).types ≤ length places.now) × Capacity image.now e.0 done (length out.old) }
    ensures { (result.at ≡ (behind image.now e.0 done).at) × (result.terms ≡ (behind image.now e.0 done).terms) × Wrote image.now places.now e.0 done out.old out.new }
{
    let fields = term_fields(image, terms, e);
    let kind = term_kind(image, terms, e);
    let known = Fields::known(codes, kind, fields);
    let mut numbers = [0u16; FIELD_LIMIT];
    let mut d = done;
    for i in 0..known.count {
        let class = known.class_of(i);
        let v = field(fields, i);
        numbers[i] = match child_of(class, v) {
            Some(child) => {
                d = write_term(image, codes, terms, places, out, d, child);
                as_field(class, d.last_term())
            }
            None => kept_number(places, class, v),
        };
    }
    d.put_term(out, kind, &numbers[..known.count])
}
