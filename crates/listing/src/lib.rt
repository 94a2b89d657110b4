// What `watch` prints (document 01, "Bench sheet"), put into a lent buffer: the listing in specs/, and here the functions that
// put it, line by line (listing_lines). Each puts as much of its text as fits and answers the offset past it.
#![tactic(auto)]

ghost use Rattle.std.specs.Prelude.{length};
ghost use Rattle.listing_lines.specs.Lines.{refusal_line, verdict_line};
ghost use Rattle.listing.specs.Listing.{run_listing, listing, refusal_bound, listing_bound};
ghost use Rattle.listing_lines.specs.Puts.{PutsWithin};

use call_spec::Answer;
use image::Refusal;
use listing_lines::text::{put, put_decimal};
use report::Ending;
use verdict::Verdict;

// No verdict's line is longer: `refusal_bound`.
pub const REFUSAL_LENGTH: usize = 40;

// `refused N PLACE`.
fn put_refusal(out: &mut [u8], why: Refusal, place: usize) -> usize
    ensures { PutsWithin refusal_bound out.old (refusal_line why place) out.new result }
{
    let o = put(out, 0, b"refused ");
    let o = put_decimal(out, o, u16::from(why) as u64);
    let o = put(out, o, b" ");
    let o = put_decimal(out, o, place as u64);
    put(out, o, b"\n")
}

// `accepted`, or the refusal.
pub fn put_verdict(out: &mut [u8], v: Verdict) -> usize
    ensures { PutsWithin refusal_bound out.old (verdict_line v) out.new result }
{
    match v {
        Ok(()) => put(out, 0, b"accepted\n"),
        Err(refused) => put_refusal(out, refused.why, refused.place),
    }
}

// Of a run that wrote this log and this report.
fn put_run(out: &mut [u8], ending: Ending, steps: u32, log: &[u8], report: &[u8]) -> usize
    ensures { PutsWithin (listing_bound (length log.now) (length report.now)) out.old (run_listing ending steps log.now report.now) out.new result }
{
    let o = listing_lines::lines::put_prints(out, 0, log);
    let o = listing_lines::endings::put_ending(out, o, ending, steps, report);
    listing_lines::lines::put_cells(out, o, report)
}

// The listing of a call with this answer, after which log and report hold these bytes.
pub fn put_listing(out: &mut [u8], a: Answer, log: &[u8], report: &[u8]) -> usize
    ensures { PutsWithin (listing_bound (length log.now) (length report.now)) out.old (listing a log.now report.now) out.new result }
{
    let verdict = a.verdict;
    let ending = a.ending;
    match verdict {
        Err(refused) => put_refusal(out, refused.why, refused.place),
        Ok(()) => put_run(
            out,
            ending,
            a.steps,
            listing_lines::offsets::front(log, a.log),
            listing_lines::offsets::front(report, a.report),
        ),
    }
}
