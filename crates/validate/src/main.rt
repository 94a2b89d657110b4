// Reads an image from standard input and prints `accepted` or `refused N PLACE`. The lent memory counts as long enough.
#![tactic(auto)]

use console::IMAGE_CAPACITY;
use image::{REPORT_LENGTH, WORK_LENGTH};

fn main(rt: HostRuntime) {
    let mut image = [0u8; IMAGE_CAPACITY];
    let Ok(n) = console::read_sole_image(&rt, b"validate < IMAGE", &mut image) else {
        return;
    };
    let v = validator::validate(&image[..n], WORK_LENGTH, REPORT_LENGTH);
    let mut out = [0u8; listing::REFUSAL_LENGTH];
    let end = listing::put_verdict(&mut out, v);
    console::write_out(&rt, &out[..end]);
}
