// The bench sheet (document 01): a call with the sheet's frame and log, and its listing.
ghost use Rattle.std.specs.Prelude.{◌≡◌, ◌≤◌, length};
ghost use Rattle.listing.specs.Conformance.{conformance_frame, conformance_listing, conformance_listing_length, Listed};

use image::{REPORT_LENGTH, WORK_LENGTH};
use std::io;

// No listing of the sheet's calls is longer: `conformance_listing_length`.
const LISTING_LENGTH: usize = 260290;

// The lengths of the sheet's frame and log.
const FRAME_LENGTH: usize = 256;

const LOG_LENGTH: usize = 16384;

// The frame: the 256 bytes 0 to 255 in order.
fn frame_bytes() -> [u8; FRAME_LENGTH]
    ensures { result ≡ conformance_frame }
{
    let mut frame = [0u8; FRAME_LENGTH];
    for i in 0..FRAME_LENGTH {
        frame[i] = i as u8;
    }
    frame
}

// The listing of an image's call with a budget, at the front of a buffer that is long enough; answers its length.
fn list_call(image: &[u8], budget: u32, out: &mut [u8]) -> usize
    requires { conformance_listing_length ≤ length out.old }
    ensures { Listed out.old (conformance_listing image.now budget) out.new result }
{
    let frame = frame_bytes();
    let mut log = [0u8; LOG_LENGTH];
    let mut report = [0u8; REPORT_LENGTH];
    let mut work = [0u8; WORK_LENGTH];
    let a = engine::run(image, &frame, budget, &mut log, &mut report, &mut work);
    listing::put_listing(out, a, &log, &report)
}

// The listing on standard output.
pub fn print_listing(rt: &impl Print, image: &[u8], budget: u32) -> io::Result<()> {
    let mut out = [0u8; LISTING_LENGTH];
    let end = list_call(image, budget, &mut out);
    rt.write_all(&out[..end])
}
