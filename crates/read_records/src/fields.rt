// The fields of a record, by place, in the part of the image that they occupy. A decoder takes what its kind has from the
// front of the part; what stands behind that is skipped (document 02, card 1).
ghost use Rattle.std.specs.Prelude.{◌≡◌, ◌+◌, ◌*◌, ◌<◌, length};
ghost use Rattle.read_records.specs.Heads.{field_in};

use crate::numbers::Numbered;

pub fn field(fields: &[u8], i: usize) -> u16
    requires { 2 * i + 1 < length fields.now }
    ensures { result ≡ field_in fields.now i }
{
    crate::words::word(fields, 2 * i)
}

// Field i, where it is a domain, a type or a term.
pub fn field_as<N: Numbered>(fields: &[u8], i: usize) -> N
    requires { 2 * i + 1 < length fields.now }
    ensures { N.number result ≡ field_in fields.now i }
{
    N::from_number(field(fields, i))
}

// Field i of a part that may end before it: past the part's end its bytes are 0.
pub fn field_or_zero(fields: &[u8], i: usize) -> u16
    requires { i < 65536 }
    ensures { result ≡ field_in fields.now i }
{
    let at = 2 * i;
    if at + 1 < fields.len() {
        return crate::words::word(fields, at);
    }
    if at < fields.len() {
        return u16::from(fields[at]);
    }
    0
}
