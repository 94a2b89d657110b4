// The watch engine (document 01): it accepts or refuses an image, and runs an accepted one over a frame up to a budget of
// steps. It writes no lent memory of a call that it refuses.
#![tactic(auto)]

mod answers;

ghost use Rattle.std.specs.Prelude.{◌≡◌};
ghost use Rattle.call_spec.specs.Calls.{called};

use call_spec::Answer;
use engine_core::prepare::prepare;
use engine_core::runs::run_code;
use image::{TERM_LIMIT, TYPE_LIMIT, WORK_LENGTH};
use validator_core::call::{Lent, check_call};
use vm_words::terms::CODE_LENGTH;

// One call: image and frame are only read; log, report and work area may have any length and content. Only an accepted image
// has code, so that a refused call makes no room for it.
pub fn run(
    image: &[u8],
    frame: &[u8],
    budget: u32,
    log: &mut [u8],
    report: &mut [u8],
    work: &mut [u8],
) -> Answer
    ensures { record { answer = result; log = log.new; report = report.new; work = work.new } ≡ called image.now frame.now budget log.old report.old work.old }
{
    let lent = Lent {
        work: work.len(),
        report: report.len(),
    };
    let mut types = [0u16; TYPE_LIMIT];
    let mut descriptors = [0u32; TYPE_LIMIT];
    let mut terms = [0u16; TERM_LIMIT];
    let checked = check_call(image, lent, &mut types, &mut descriptors, &mut terms);
    match checked {
        Err(refused) => answers::refused(refused.why, refused.place),
        Ok(counts) => {
            let mut code = [0u64; CODE_LENGTH];
            let mut dispatch = [0u8; CODE_LENGTH];
            let target = prepare(
                image,
                &types,
                &descriptors,
                &terms,
                counts,
                &mut code,
                &mut dispatch,
            );
            let answer = run_code(
                image, &code, &dispatch, target, frame, budget, log, report, work,
            );
            base_bytes::clear(work, WORK_LENGTH);
            answer
        }
    }
}
