// An image without its watches (document 02, card 13): the body of every low advice and every low lower is a unit, and the
// image has the fixed form of card 11. The image is checked first; nothing is written if it is refused, if the given mask is no
// set of high domains, or if the output is shorter than the image.
#![tactic(auto)]

ghost use Rattle.std.specs.Prelude.{◌≡◌, Ok, ◌≤◌, length};
ghost use Rattle.image.specs.Limits.{image_limit};
ghost use Rattle.image.specs.Layout.{records_of};
ghost use Rattle.base_bytes.specs.Bytes.{over};
ghost use Rattle.read_records.specs.Codes.{kind_codes};
ghost use Rattle.read_records.specs.Tables.{Tables, Counted};
ghost use Rattle.read_terms.specs.Lent.{Domains, TypeOffsets};
ghost use Rattle.validator_core.specs.Examined.{examined};
ghost use Rattle.image_written.specs.Stripped.{without_watches};
ghost use Rattle.write_masks.specs.Masks.{in_mask};
ghost use Rattle.write_stripped.specs.declared.StripError.{StripError};
ghost use Rattle.write_stripped.specs.Calls.{wrong_set, error_number, error_place, stripped_number, stripped_place, stripped_bytes, stripped_call};

use image::{DOMAIN_LIMIT, IMAGE_LIMIT, Refusal, Refused, TERM_LIMIT, TYPE_LIMIT};
use read_records::numbers::Counts;
use read_terms::domains::set_masks;
use write_image::write_whole;
use write_unit_bodies::copy_with_unit_bodies;

// The numbers of a mask that is no set of high domains, and of an output that is shorter than the image (document 02, card 13).
const WRONG_SET: u16 = 23;

const SHORT_OUTPUT: u16 = 24;

// Why nothing was written: the image is refused, the mask is no set of high domains, or the output is too short.
#[derive(Clone, Copy)]
pub enum StripError {
    Refused(Refused),
    WrongSet,
    ShortOutput,
}

impl From<Refused> for StripError {
    ghost from_gives = { λ refused e. e ≡ StripError.Refused refused };

    fn from(refused: Refused) -> Self {
        Self::Refused(refused)
    }
}

impl StripError {
    // Its number (document 02, card 13), and its place.
    pub fn number(self) -> u16
        ensures { result ≡ error_number self }
    {
        match self {
            Self::Refused(refused) => image_refusals::refusal_number(refused.why),
            Self::WrongSet => WRONG_SET,
            Self::ShortOutput => SHORT_OUTPUT,
        }
    }

    pub fn place(self) -> usize
        ensures { result ≡ error_place self }
    {
        match self {
            Self::Refused(refused) => refused.place,
            Self::WrongSet | Self::ShortOutput => 0,
        }
    }
}

// The mask is no set of high domains of the image.
fn is_wrong_set(image: &[u8], doms: &[u16], count: usize, mask: u16) -> bool
    requires { Domains image.now doms.now × (count ≡ length (records_of image.now).domains) }
    ensures { result ≡ wrong_set (records_of image.now) mask }
{
    let mut masks = [0u16; DOMAIN_LIMIT];
    set_masks(image, doms, count, &mut masks);
    write_masks::is_wrong(&masks, count, mask)
}

// The image without its watches, at the front of the output: written from a copy in which low bodies are units.
fn write_copy(
    image: &[u8],
    codes: &[u32],
    counts: Counts,
    doms: &[u16],
    types: &[u16],
    descriptors: &[u32],
    terms: &[u16],
    mask: u16,
    copy: &mut [u8],
    out: &mut [u8],
) -> usize
    requires { (length image.now ≤ image_limit) × (examined image.now ≡ Ok tt) × (codes.now ≡ kind_codes) × Tables image.now doms.now terms.now descriptors.now × Counted image.now counts × TypeOffsets image.now types.now × (length copy.old ≡ length image.now) × (length image.now ≤ length out.old) }
    ensures { (result ≡ length (without_watches (in_mask mask) image.now)) × (out.new ≡ over 0 (without_watches (in_mask mask) image.now) out.old) }
{
    copy_with_unit_bodies(image, terms, descriptors, counts.terms, mask, copy);
    write_whole(copy, codes, counts, doms, types, terms, out)
}

// The set of high domains, the length of the output, then the image without its watches, of an image that is accepted.
fn write_checked(
    image: &[u8],
    codes: &[u32],
    counts: Counts,
    doms: &[u16],
    types: &[u16],
    descriptors: &[u32],
    terms: &[u16],
    mask: u16,
    out: &mut [u8],
) -> Result<usize, StripError>
    requires { (length image.now ≤ image_limit) × (examined image.now ≡ Ok tt) × (codes.now ≡ kind_codes) × Tables image.now doms.now terms.now descriptors.now × Counted image.now counts × TypeOffsets image.now types.now }
    ensures { record { answer = result; out = out.new } ≡ stripped_call image.now mask out.old }
{
    if is_wrong_set(image, doms, counts.domains, mask) {
        return Err(StripError::WrongSet);
    }
    let size = image.len();
    if out.len() < size {
        return Err(StripError::ShortOutput);
    }
    let mut copy = [0u8; IMAGE_LIMIT];
    let n = write_copy(
        image,
        codes,
        counts,
        doms,
        types,
        descriptors,
        terms,
        mask,
        &mut copy[..size],
        out,
    );
    Ok(n)
}

// One call: the image is only read, the output may have any length and content.
pub fn write_stripped(image: &[u8], mask: u16, out: &mut [u8]) -> Result<usize, StripError>
    ensures { record { answer = result; out = out.new } ≡ stripped_call image.now mask out.old }
{
    if IMAGE_LIMIT < image.len() {
        let too_long = Refused {
            why: Refusal::ImageTooLong,
            place: 0,
        };
        return Err(StripError::Refused(too_long));
    }
    let codes = read_records::table::kind_codes();
    let mut doms = [0u16; DOMAIN_LIMIT];
    let mut types = [0u16; TYPE_LIMIT];
    let mut descriptors = [0u32; TYPE_LIMIT];
    let mut terms = [0u16; TERM_LIMIT];
    let counts = validator_core::examine::examine_image(
        image,
        &mut doms,
        &mut types,
        &mut descriptors,
        &mut terms,
    )?;
    write_checked(
        image,
        &codes,
        counts,
        &doms,
        &types,
        &descriptors,
        &terms,
        mask,
        out,
    )
}

// The number of an answer, 0 where the image was written, and its place.
pub fn stripped_number(s: Result<usize, StripError>) -> u16
    ensures { result ≡ stripped_number s }
{
    match s {
        Ok(_) => 0,
        Err(why) => why.number(),
    }
}

pub fn stripped_place(s: Result<usize, StripError>) -> usize
    ensures { result ≡ stripped_place s }
{
    match s {
        Ok(_) => 0,
        Err(why) => why.place(),
    }
}

// How many bytes were written.
pub fn stripped_bytes(s: Result<usize, StripError>) -> usize
    ensures { result ≡ stripped_bytes s }
{
    s.unwrap_or(0)
}
