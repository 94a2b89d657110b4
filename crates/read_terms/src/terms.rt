// The records of the terms. The table has their offsets; the head of a record tells its kind; its fields are handed on as the
// part of the image that they occupy, and a decoder takes its own fields from the front of that part.
ghost use Rattle.std.specs.Prelude.{◌≡◌, ◌+◌, ◌*◌, ◌<◌, length, get_or, leb};
ghost use Rattle.image.specs.Bytes.{number_at};
ghost use Rattle.image.specs.Kinds.{TermKind, term_row, lead_of};
ghost use Rattle.image.specs.Layout.{records_of};
ghost use Rattle.image.specs.Types.{term_place, type_no};
ghost use Rattle.read_records.specs.Heads.{field_in};
ghost use Rattle.read_terms.specs.Lent.{Terms, Types, IsTerm, IsType};
ghost use Rattle.read_terms.specs.Fields.{fields_of, children_in, count_in, AtField, HasChild};

use crate::entries::{match_child, match_child_count};
use read_records::kinds;
use read_records::numbers::{TermNo, TypeNo, type_descriptor};
use read_records::words::word;

// The offset of a term's record.
pub fn term_place(image: &[u8], terms: &[u16], n: TermNo) -> usize
    requires { Terms image.now terms.now × IsTerm image.now n.0 }
    ensures { (result ≡ term_place (records_of image.now) n.0) × (result + 5 < length image.now) }
{
    read_records::numbers::term_offset(terms, n)
}

// The number of its kind.
pub fn term_kind(image: &[u8], terms: &[u16], n: TermNo) -> u16
    requires { Terms image.now terms.now × IsTerm image.now n.0 }
    ensures { result ≡ number_at image.now (term_place (records_of image.now) n.0) }
{
    read_records::words::kind_at(image, term_place(image, terms, n))
}

// Its fields.
pub fn term_fields<'a>(image: &'a [u8], terms: &[u16], n: TermNo) -> &'a [u8]
    requires { Terms image.now terms.now × IsTerm image.now n.0 }
    ensures { result.now ≡ fields_of image.now n.0 }
{
    read_records::reader::fields_at(image, term_place(image, terms, n))
}

// The type, which every term has first.
pub fn own_type(fields: &[u8]) -> TypeNo
    requires { 1 < length fields.now }
    ensures { result.0 ≡ field_in fields.now 0 }
{
    TypeNo(word(fields, 0))
}

// Its descriptor.
pub fn own_descriptor(descriptors: &[u32], fields: &[u8]) -> u32
    requires { (1 < length fields.now) × (field_in fields.now 0 < length descriptors.now) }
    ensures { result ≡ get_or descriptors.now (field_in fields.now 0) 0 }
{
    type_descriptor(descriptors, own_type(fields))
}

// The field behind the type: a variable's number, an operation, a domain.
pub fn other_field(fields: &[u8]) -> u16
    requires { 3 < length fields.now }
    ensures { result ≡ field_in fields.now 1 }
{
    word(fields, 2)
}

// The child at field k.
pub fn child_at_field(fields: &[u8], k: usize) -> TermNo
    requires { 2 * k + 1 < length fields.now }
    ensures { result.0 ≡ field_in fields.now k }
{
    TermNo(word(fields, 2 * k))
}

// The type that a term states, in its own fields.
pub fn stated_type(image: &[u8], terms: &[u16], n: TermNo) -> TypeNo
    requires { Terms image.now terms.now × IsTerm image.now n.0 }
    ensures { (result.0 ≡ type_no (records_of image.now) n.0) × IsType image.now result.0 }
{
    own_type(term_fields(image, terms, n))
}

// The type of the child at field k; and its descriptor.
pub fn type_at_field(image: &[u8], terms: &[u16], fields: &[u8], k: usize) -> TypeNo
    requires { Terms image.now terms.now × AtField image.now fields.now k }
    ensures { (result.0 ≡ type_no (records_of image.now) (field_in fields.now k)) × IsType image.now result.0 }
{
    stated_type(image, terms, child_at_field(fields, k))
}

pub fn descriptor_at_field(
    image: &[u8],
    terms: &[u16],
    descriptors: &[u32],
    fields: &[u8],
    k: usize,
) -> u32
    requires { Terms image.now terms.now × Types image.now descriptors.now × AtField image.now fields.now k }
    ensures { result ≡ get_or descriptors.now (type_no (records_of image.now) (field_in fields.now k)) 0 }
{
    type_descriptor(descriptors, type_at_field(image, terms, fields, k))
}

// How many fields stand before the children of a kind.
pub fn lead_of(kind: u16) -> usize
    ensures { (k : TermKind) → kind ≡ (term_row k).number → result ≡ lead_of k }
{
    match kind {
        kinds::TRUTH => 2,
        kinds::NUMBER => 3,
        kinds::VARIABLE => 2,
        kinds::ARITHMETIC => 2,
        kinds::LOWER => 2,
        kinds::TAKEDOWN => 2,
        _ => 1,
    }
}

// How many labels the fields of a pointcut hold.
pub fn labels_in(fields: &[u8]) -> usize
    requires { 1 < length fields.now }
    ensures { result ≡ count_in fields.now TermKind.pcd }
{
    fields.len() / 2 - 1
}

// How many bodies the fields of an object hold.
pub fn bodies_in(fields: &[u8]) -> usize
    requires { 1 < length fields.now }
    ensures { result ≡ count_in fields.now TermKind.obj }
{
    fields.len() / 2 - 1
}

// How many children there are: as many as the kind has; a pointcut, an object and a match have as many as their fields hold.
pub fn child_count(kind: u16, fields: &[u8]) -> usize
    requires { 1 < length fields.now }
    ensures { (k : TermKind) → kind ≡ (term_row k).number → result ≡ length (children_in fields.now k) }
{
    match kind {
        kinds::SEQUENCE => 2,
        kinds::PRINT => 1,
        kinds::CHOICE => 3,
        kinds::PAIR => 2,
        kinds::SPLIT => 2,
        kinds::FUNCTION => 1,
        kinds::APPLY => 2,
        kinds::ARITHMETIC => 2,
        kinds::MARK => 2,
        kinds::POINTCUT => labels_in(fields),
        kinds::ADVICE => 2,
        kinds::INSTALL => 1,
        kinds::NEW_CELL => 1,
        kinds::READ => 1,
        kinds::STORE => 2,
        kinds::LOWER => 1,
        kinds::FRAME_BYTE => 1,
        kinds::OBJECT => bodies_in(fields),
        kinds::CALL => 1,
        kinds::KEEP => 3,
        kinds::MATCH => match_child_count(fields),
        _ => 0,
    }
}

// Child j of a term with `lead` fields before its children, which stand side by side; the entries of a match name the others.
pub fn child_of(kind: u16, fields: &[u8], lead: usize, j: usize) -> TermNo
    requires { (k : TermKind) × ((kind ≡ (term_row k).number) × (lead ≡ lead_of k) × HasChild fields.now k j) }
    ensures { (k : TermKind) → kind ≡ (term_row k).number → result.0 ≡ get_or (children_in fields.now k) j 0 }
{
    if kind == kinds::MATCH {
        return match_child(fields, j);
    }
    child_at_field(fields, lead + j)
}

// Whether a term is a constant or a variable: the kinds up to 35.
pub fn is_leaf(image: &[u8], terms: &[u16], n: TermNo) -> bool
    requires { Terms image.now terms.now × IsTerm image.now n.0 }
    ensures { result ≡ leb (number_at image.now (term_place (records_of image.now) n.0)) 35 }
{
    term_kind(image, terms, n) <= kinds::VARIABLE
}
