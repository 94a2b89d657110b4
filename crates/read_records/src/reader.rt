// The record reader (document 01, "The image": "A walk keeps the lent image and the offset of its next record, and hands
// each record's fields on as the part of the image that they occupy"). The loop over the records keeps a Walk in a local
// (check_layout, scan_with): it asks for the next head and the fields, and goes on past the record.
ghost use Rattle.std.specs.Prelude.{◌≡◌, ◌+◌, ◌<◌, ◌≤◌, ◌^◌, length, take, drop};
ghost use Rattle.read_records.specs.Heads.{head_at, field_bytes, IsWhole, fields_at};

use image::Refusal;

#[derive(Clone, Copy)]
pub struct Walk<'a> {
    pub image: &'a [u8],
    pub at: usize,
}

// A whole record's length and its kind's number.
#[derive(Clone, Copy)]
pub struct Head {
    pub len: usize,
    pub kind: u16,
}

// What stands at an offset: a whole record, or nothing more; or the image is refused there.
pub fn head_of(image: &[u8], at: usize) -> Result<Option<Head>, Refusal>
    ensures { result ≡ head_at image.now at }
{
    if image.len() <= at {
        return Ok(None);
    }
    if image.len() - at < 4 {
        return Err(Refusal::BrokenRecord);
    }
    let len = usize::from(crate::words::word(image, at));
    if len < 4 {
        return Err(Refusal::BrokenRecord);
    }
    if image.len() - at < len {
        return Err(Refusal::BrokenRecord);
    }
    let kind = crate::words::word(image, at + 2);
    Ok(Some(Head { len, kind }))
}

// The fields of a record of len bytes: the part of the image that they occupy, not a copy. It may be longer than the kind
// needs (document 02, card 1): each user takes its own fields from the front and leaves the rest.
pub fn fields_of(image: &[u8], at: usize, len: usize) -> &[u8]
    requires { (4 ≤ len) × (at + len ≤ length image.now) }
    ensures { result.now ≡ field_bytes image.now at len }
{
    let a = at + 4;
    let e = at + len;
    &image[a..e]
}

impl<'a> Walk<'a> {
    // A walk whose next record is at an offset.
    pub fn new(image: &'a [u8], at: usize) -> Walk<'a>
        ensures { (result.image ≡ image.entry) × (result.at ≡ at) }
    {
        Walk { image, at }
    }

    // What the walk stands at.
    pub fn next(self) -> Result<Option<Head>, Refusal>
        ensures { result ≡ head_at self.entry.image.now self.entry.at }
    {
        head_of(self.image, self.at)
    }

    // The fields of the record of len bytes that the walk stands at.
    pub fn fields(self, len: usize) -> &'a [u8]
        requires { (4 ≤ len) × (self.at + len ≤ length self.image.now) }
        ensures { result.now ≡ field_bytes self.entry.image.now self.entry.at len }
    {
        fields_of(self.image, self.at, len)
    }

    // The walk past the record of len bytes that it stands at.
    pub fn past(self, len: usize) -> Walk<'a>
        requires { self.at + len < 2 ^ 64 }
        ensures { (result.image ≡ self.entry.image) × (result.at ≡ self.entry.at + len) }
    {
        Walk {
            at: self.at + len,
            ..self
        }
    }
}

// The fields of the record of len bytes at an offset, for a user that has no walk: each names its record by its offset.
pub fn fields_from(image: &[u8], at: usize, len: usize) -> &[u8]
    requires { (4 ≤ len) × (at + len ≤ length image.now) }
    ensures { result.now ≡ field_bytes image.now at len }
{
    Walk::new(image, at).fields(len)
}

// The fields of the record at an offset where a whole record stands.
pub fn fields_at(image: &[u8], at: usize) -> &[u8]
    requires { IsWhole image.now at }
    ensures { result.now ≡ fields_at image.now at }
{
    let len = usize::from(crate::words::word(image, at));
    fields_from(image, at, len)
}

// At most n bytes of the image from an offset on: the part of a term's fields that the term's code word names. The words of the
// code say where fields stand, and nothing here says that they lie in the image: so the part ends where the image ends.
pub fn part(image: &[u8], at: usize, n: usize) -> &[u8]
    ensures { result.now ≡ take n (drop at image.now) }
{
    let end = image.len();
    let a = at.min(end);
    let e = a + n.min(end - a);
    &image[a..e]
}
