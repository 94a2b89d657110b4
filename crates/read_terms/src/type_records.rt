// The records of the types, and the methods of an object's type (document 02, card 3): each is a domain and a type, and they
// are all of the record's fields.
ghost use Rattle.std.specs.Prelude.{◌≡◌, ◌<◌};
ghost use Rattle.image.specs.Bytes.{number_at};
ghost use Rattle.image.specs.Layout.{records_of};
ghost use Rattle.image.specs.Types.{type_place};
ghost use Rattle.read_terms.specs.Lent.{TypeOffsets, IsType};
ghost use Rattle.read_terms.specs.Methods.{type_fields_of, method_in};

use read_records::fields::field_as;
use read_records::kinds::OBJECT_TYPE;
use read_records::numbers::{DomainNo, TypeNo, type_offset};
use read_records::reader::fields_at;
use read_records::words::kind_at;

// The number of a type's kind.
pub fn type_kind(image: &[u8], types: &[u16], t: TypeNo) -> u16
    requires { TypeOffsets image.now types.now × IsType image.now t.0 }
    ensures { result ≡ number_at image.now (type_place (records_of image.now) t.0) }
{
    kind_at(image, type_offset(types, t))
}

// Its fields.
pub fn type_fields<'a>(image: &'a [u8], types: &[u16], t: TypeNo) -> &'a [u8]
    requires { TypeOffsets image.now types.now × IsType image.now t.0 }
    ensures { result.now ≡ type_fields_of image.now t.0 }
{
    fields_at(image, type_offset(types, t))
}

// A method takes so many bytes: two fields.
const METHOD_BYTES: usize = 4;

// The domain of method m of a type of that kind with these fields, 0 where it has no such method.
pub fn method_domain(kind: u16, fields: &[u8], m: usize) -> DomainNo
    requires { m < 65536 }
    ensures { result.0 ≡ method_in kind fields.now m }
{
    if kind == OBJECT_TYPE && METHOD_BYTES + METHOD_BYTES * m <= fields.len() {
        return field_as(fields, 2 * m);
    }
    DomainNo(0)
}
