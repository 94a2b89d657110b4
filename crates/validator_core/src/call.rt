// The check of a call: its image, then the lengths of lent memory (document 01, "Turned back at the gate").
ghost use Rattle.std.specs.Prelude.{◌≡◌, length};
ghost use Rattle.image.specs.Limits.{type_limit, term_limit};
ghost use Rattle.validator_core.specs.Calls.{Answered};

use image::{
    DOMAIN_LIMIT, IMAGE_LIMIT, REPORT_LENGTH, Refusal, Refused, TERM_LIMIT, TYPE_LIMIT, WORK_LENGTH,
};
use read_records::numbers::Counts;

// The lengths of the lent work area and of the lent report.
#[derive(Clone, Copy)]
pub struct Lent {
    pub work: usize,
    pub report: usize,
}

// Refusals 1 to 18 in their order; the tables of an accepted image are those of its types and terms.
pub fn check_call(
    image: &[u8],
    lent: Lent,
    types: &mut [u16; TYPE_LIMIT],
    descriptors: &mut [u32; TYPE_LIMIT],
    terms: &mut [u16; TERM_LIMIT],
) -> Result<Counts, Refused>
    requires { (length types.old ≡ type_limit) × (length descriptors.old ≡ type_limit) × (length terms.old ≡ term_limit) }
    ensures { Answered image.now lent result types.new descriptors.new terms.new × (length types.new ≡ type_limit) × (length descriptors.new ≡ type_limit) × (length terms.new ≡ term_limit) }
{
    if IMAGE_LIMIT < image.len() {
        return Err(Refused {
            why: Refusal::ImageTooLong,
            place: 0,
        });
    }
    let mut doms = [0u16; DOMAIN_LIMIT];
    let counts = crate::examine::examine_image(image, &mut doms, types, descriptors, terms)?;
    if lent.work < WORK_LENGTH {
        return Err(Refused {
            why: Refusal::ShortWorkArea,
            place: 0,
        });
    }
    if lent.report < REPORT_LENGTH {
        return Err(Refused {
            why: Refusal::ShortReport,
            place: 0,
        });
    }
    Ok(counts)
}
