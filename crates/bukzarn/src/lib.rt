// The engine for callers in other languages: each function is one call of the crate that it names, with the answer as one
// number. Memory that is lent may have any length and content.
#![tactic(auto)]

pub mod frames;

ghost use Rattle.std.specs.Prelude.{◌≡◌, length};
ghost use Rattle.verdict.specs.Verdicts.{verdict};
ghost use Rattle.image_needs.specs.Forecasts.{forecast};
ghost use Rattle.call_spec.specs.Calls.{called};
ghost use Rattle.write_fixed.specs.Calls.{fixed_call};
ghost use Rattle.write_load.specs.Loads.{loaded};
ghost use Rattle.write_stripped.specs.Calls.{stripped_call};
ghost use Rattle.bukzarn.specs.Numbers.{verdict_as_number, need_as_number, written_as_number, load_as_number, stripped_as_number, Numbered};
ghost use Rattle.answers_as_numbers.specs.Forecasts.{numbers_left};

use answers_as_numbers::forecasts::{need_number, put_forecast};
use answers_as_numbers::numbers::{as_number, call_number, refused_as_number};

// A call of the engine: the bytes of report and of log that were written, or the refusal.
#[unsafe(no_mangle)]
pub extern "C" fn bukzarn_run(
    image: &[u8],
    frame: &[u8],
    budget: u32,
    log: &mut [u8],
    report: &mut [u8],
    work: &mut [u8],
) -> u64
    ensures { Numbered (called image.now frame.now budget log.old report.old work.old) result log.new report.new work.new }
{
    call_number(engine::run(image, frame, budget, log, report, work))
}

// What a call of the engine would be refused for, with a work area and a report of so many bytes; 0 if it would run.
#[unsafe(no_mangle)]
pub extern "C" fn bukzarn_validate(image: &[u8], work: usize, report: usize) -> u64
    ensures { result ≡ verdict_as_number (verdict image.now work report) }
{
    let v = validator::validate(image, work, report);
    refused_as_number(validator::verdict_number(v), validator::verdict_place(v))
}

// What a flight will need (document 02, card 10): the eleven numbers in the first places, and 0; or the refusal; where there are
// fewer places, the refusal of these.
#[unsafe(no_mangle)]
pub extern "C" fn bukzarn_need(image: &[u8], numbers: &mut [u32]) -> u64
    ensures { (result ≡ need_as_number (forecast image.now) (length numbers.old)) × (numbers.new ≡ numbers_left (forecast image.now) numbers.old) }
{
    let places = numbers.len();
    let f = needs::forecast_image(image);
    put_forecast(numbers, f);
    refused_as_number(need_number(f, places), image_needs::forecast_place(f))
}

// The fixed form of an image (card 11): the bytes written, or the refusal.
#[unsafe(no_mangle)]
pub extern "C" fn bukzarn_fixed(image: &[u8], out: &mut [u8]) -> u64
    ensures { (result ≡ written_as_number (fixed_call image.now out.old).answer) × (out.new ≡ (fixed_call image.now out.old).out) }
{
    let w = write_fixed::write_fixed(image, out);
    as_number(
        write_fixed::written_bytes(w),
        write_fixed::written_number(w),
        write_fixed::written_place(w),
    )
}

// The image of a seed and a depth (card 12): the bytes written, or the refusal.
#[unsafe(no_mangle)]
pub extern "C" fn bukzarn_load(seed: u32, depth: usize, out: &mut [u8]) -> u64
    ensures { (result ≡ load_as_number (loaded seed depth out.old).answer) × (out.new ≡ (loaded seed depth out.old).output) }
{
    let a = write_load::generate(seed, depth, out);
    as_number(write_load::load_bytes(a), write_load::load_number(a), 0)
}

// An image without its watches, for a mask of high domains (card 13): the bytes written, or the refusal.
#[unsafe(no_mangle)]
pub extern "C" fn bukzarn_strip(image: &[u8], mask: u16, out: &mut [u8]) -> u64
    ensures { (result ≡ stripped_as_number (stripped_call image.now mask out.old).answer) × (out.new ≡ (stripped_call image.now mask out.old).out) }
{
    let s = write_stripped::write_stripped(image, mask, out);
    as_number(
        write_stripped::stripped_bytes(s),
        write_stripped::stripped_number(s),
        write_stripped::stripped_place(s),
    )
}
