// Reads an image from standard input and writes its fixed form to standard output (document 02, card 11); a refusal is
// `refused N PLACE` on standard error, and nothing is written.
#![tactic(auto)]

use console::IMAGE_CAPACITY;

fn main(rt: HostRuntime) {
    let mut image = [0u8; IMAGE_CAPACITY];
    let Ok(n) = console::read_sole_image(&rt, b"fixed < IMAGE > FORM", &mut image) else {
        return;
    };
    let mut out = [0u8; IMAGE_CAPACITY];
    let w = write_fixed::write_fixed(&image[..n], &mut out);
    console::write_image(
        &rt,
        &out,
        write_fixed::written_bytes(w),
        write_fixed::written_number(w),
        write_fixed::written_place(w),
    );
}
