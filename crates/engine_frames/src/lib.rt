// The runs of one image over the frames of a recording, when its code is ready.
#![tactic(auto)]

ghost use Rattle.std.specs.Prelude.{◌≡◌, ◌≤◌, ◌<◌, length};
ghost use Rattle.image.specs.Limits.{work_length, report_length};
ghost use Rattle.call_spec.specs.Runs.{Accepts};
ghost use Rattle.answers_as_numbers.specs.Recordings.{part_length, called_over};
ghost use Rattle.engine_core.specs.Prepared.{Runnable};

use answers_as_numbers::numbers::call_number;
use engine_core::runs::run_code;
use image::WORK_LENGTH;

// Runs of code that is ready, each over its own frame, with a log and a report of its own. The work area is cleared once, after
// the last run: no run depends on what its front held before.
pub fn run_each(
    image: &[u8],
    code: &[u64],
    dispatch: &[u8],
    target: usize,
    frames: &[u8],
    budget: u32,
    logs: &mut [u8],
    reports: &mut [u8],
    numbers: &mut [u64],
    work: &mut [u8],
)
    requires { Accepts image.now × Runnable image.now code.now dispatch.now target × (0 < length numbers.old) × (work_length ≤ length work.old) × (report_length ≤ part_length (length numbers.old) reports.old) }
    ensures { record { answers = numbers.new; logs = logs.new; reports = reports.new; work = work.new } ≡ called_over image.now frames.now budget (record { answers = numbers.old; logs = logs.old; reports = reports.old; work = work.old }) }
{
    let count = numbers.len();
    let frame = frames.len() / count;
    let log = logs.len() / count;
    let report = reports.len() / count;
    for i in 0..count {
        let f = i * frame;
        let f_end = f + frame;
        let l = i * log;
        let l_end = l + log;
        let r = i * report;
        let r_end = r + report;
        let answer = run_code(
            image,
            code,
            dispatch,
            target,
            &frames[f..f_end],
            budget,
            &mut logs[l..l_end],
            &mut reports[r..r_end],
            work,
        );
        numbers[i] = call_number(answer);
    }
    base_bytes::clear(work, WORK_LENGTH);
}
