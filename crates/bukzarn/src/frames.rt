// The calls of one image over the frames of a recording: the image is checked once.
ghost use Rattle.std.specs.Prelude.{◌≡◌};
ghost use Rattle.answers_as_numbers.specs.Recordings.{called_over};

use answers_as_numbers::frames::refuse_each;
use engine_core::prepare::prepare;
use engine_frames::run_each;
use image::{TERM_LIMIT, TYPE_LIMIT};
use validator_core::call::{Lent, check_call};
use vm_words::terms::CODE_LENGTH;

// One call after another: `frames`, `logs` and `reports` are cut into as many equal parts as there are answers, and call i has
// part i of each. What every call answers and leaves is what a single one would.
#[unsafe(no_mangle)]
pub extern "C" fn bukzarn_run_frames(
    image: &[u8],
    frames: &[u8],
    budget: u32,
    logs: &mut [u8],
    reports: &mut [u8],
    numbers: &mut [u64],
    work: &mut [u8],
)
    ensures { record { answers = numbers.new; logs = logs.new; reports = reports.new; work = work.new } ≡ called_over image.now frames.now budget (record { answers = numbers.old; logs = logs.old; reports = reports.old; work = work.old }) }
{
    let count = numbers.len();
    if count == 0 {
        return;
    }
    let report = reports.len() / count;
    let lent = Lent {
        work: work.len(),
        report: report,
    };
    let mut types = [0u16; TYPE_LIMIT];
    let mut descriptors = [0u32; TYPE_LIMIT];
    let mut terms = [0u16; TERM_LIMIT];
    let checked = check_call(image, lent, &mut types, &mut descriptors, &mut terms);
    match checked {
        Err(refused) => refuse_each(refused.why, refused.place, numbers),
        Ok(counts) => {
            let mut code = [0u64; CODE_LENGTH];
            let mut dispatch = [0u8; CODE_LENGTH];
            let target = prepare(
                image,
                &types,
                &descriptors,
                &terms,
                counts,
                &mut code,
                &mut dispatch,
            );
            run_each(
                image, &code, &dispatch, target, frames, budget, logs, reports, numbers, work,
            )
        }
    }
}
