// The validator (document 01, "Turned back at the gate"): which images are accepted, and the one refusal of every other.
// It reads the image alone and writes no lent memory.
#![tactic(auto)]

ghost use Rattle.std.specs.Prelude.{◌≡◌};
ghost use Rattle.verdict.specs.Verdicts.{verdict};
ghost use Rattle.validator.specs.Numbers.{verdict_number, verdict_place};

use image::{TERM_LIMIT, TYPE_LIMIT};
use validator_core::call::{Lent, check_call};
use verdict::Verdict;

// The verdict on an image, for a work area and a report of so many bytes: refusals 1 to 18 in their order.
pub fn validate(image: &[u8], work: usize, report: usize) -> Verdict
    ensures { result ≡ verdict image.now work report }
{
    let lent = Lent {
        work: work,
        report: report,
    };
    let mut types = [0u16; TYPE_LIMIT];
    let mut descriptors = [0u32; TYPE_LIMIT];
    let mut terms = [0u16; TERM_LIMIT];
    check_call(image, lent, &mut types, &mut descriptors, &mut terms)?;
    Ok(())
}

// A verdict's number, 0 for accepted, and its place.
pub fn verdict_number(v: Verdict) -> u16
    ensures { result ≡ verdict_number v }
{
    match v {
        Ok(()) => 0,
        Err(refused) => image_refusals::refusal_number(refused.why),
    }
}

pub fn verdict_place(v: Verdict) -> usize
    ensures { result ≡ verdict_place v }
{
    match v {
        Ok(()) => 0,
        Err(refused) => refused.place,
    }
}
