// The fixed form of an image (document 02, card 11): equal programs over equal domains have equal bytes. The image is checked
// first; nothing is written if it is refused, or if the output is shorter than the image.
#![tactic(auto)]

ghost use Rattle.std.specs.Prelude.{◌≡◌, Ok, List, ℕ, ◌≤◌, length};
ghost use Rattle.image.specs.Limits.{image_limit};
ghost use Rattle.read_records.specs.Codes.{kind_codes};
ghost use Rattle.read_records.specs.Tables.{Tables, Counted};
ghost use Rattle.read_terms.specs.Lent.{TypeOffsets};
ghost use Rattle.validator_core.specs.Examined.{examined};
ghost use Rattle.write_fixed.specs.declared.FixedError.{FixedError};
ghost use Rattle.write_fixed.specs.Calls.{error_number, error_place, written_number, written_place, written_bytes, fixed_call};

use image::{DOMAIN_LIMIT, IMAGE_LIMIT, Refusal, Refused, TERM_LIMIT, TYPE_LIMIT};
use read_records::numbers::Counts;

// The number of an output that is shorter than the image (document 02, card 11).
const SHORT_OUTPUT: u16 = 20;

// Why nothing was written: the image is refused, or the output is too short.
#[derive(Clone, Copy)]
pub enum FixedError {
    Refused(Refused),
    ShortOutput,
}

impl From<Refused> for FixedError {
    ghost from_gives = { λ refused e. e ≡ FixedError.Refused refused };

    fn from(refused: Refused) -> Self {
        Self::Refused(refused)
    }
}

impl FixedError {
    // Its number (document 02, card 11), and its place.
    pub fn number(self) -> u16
        ensures { result ≡ error_number self }
    {
        match self {
            Self::Refused(refused) => image_refusals::refusal_number(refused.why),
            Self::ShortOutput => SHORT_OUTPUT,
        }
    }

    pub fn place(self) -> usize
        ensures { result ≡ error_place self }
    {
        match self {
            Self::Refused(refused) => refused.place,
            Self::ShortOutput => 0,
        }
    }
}

// Of an accepted image: tests the length of the output, then writes the fixed form.
fn write_checked(
    image: &[u8],
    codes: &[u32],
    counts: Counts,
    doms: &[u16],
    types: &[u16],
    terms: &[u16],
    out: &mut [u8],
) -> Result<usize, FixedError>
    requires { (length image.now ≤ image_limit) × (examined image.now ≡ Ok tt) × (codes.now ≡ kind_codes) × ((ks : List ℕ) × Tables image.now doms.now terms.now ks) × Counted image.now counts × TypeOffsets image.now types.now }
    ensures { record { answer = result; out = out.new } ≡ fixed_call image.now out.old }
{
    if out.len() < image.len() {
        return Err(FixedError::ShortOutput);
    }
    Ok(write_image::write_whole(image, codes, counts, doms, types, terms, out))
}

// One call: the image is only read, the output may have any length and content.
pub fn write_fixed(image: &[u8], out: &mut [u8]) -> Result<usize, FixedError>
    ensures { record { answer = result; out = out.new } ≡ fixed_call image.now out.old }
{
    if IMAGE_LIMIT < image.len() {
        let too_long = Refused {
            why: Refusal::ImageTooLong,
            place: 0,
        };
        return Err(FixedError::Refused(too_long));
    }
    let codes = read_records::table::kind_codes();
    let mut doms = [0u16; DOMAIN_LIMIT];
    let mut types = [0u16; TYPE_LIMIT];
    let mut descriptors = [0u32; TYPE_LIMIT];
    let mut terms = [0u16; TERM_LIMIT];
    let counts = validator_core::examine::examine_image(
        image,
        &mut doms,
        &mut types,
        &mut descriptors,
        &mut terms,
    )?;
    write_checked(image, &codes, counts, &doms, &types, &terms, out)
}

// The number of an answer, 0 where the fixed form was written, and its place.
pub fn written_number(w: Result<usize, FixedError>) -> u16
    ensures { result ≡ written_number w }
{
    match w {
        Ok(_) => 0,
        Err(why) => why.number(),
    }
}

pub fn written_place(w: Result<usize, FixedError>) -> usize
    ensures { result ≡ written_place w }
{
    match w {
        Ok(_) => 0,
        Err(why) => why.place(),
    }
}

// How many bytes were written.
pub fn written_bytes(w: Result<usize, FixedError>) -> usize
    ensures { result ≡ written_bytes w }
{
    w.unwrap_or(0)
}
