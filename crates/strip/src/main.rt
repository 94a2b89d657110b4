// Reads an image from standard input and writes it without its watches to standard output (document 02, card 13); its argument
// is the mask of the high domains, as a decimal number. A refusal is `refused N PLACE` on standard error, and nothing is
// written.
#![tactic(auto)]

use console::IMAGE_CAPACITY;

// A mask has 16 bits.
const MOST_MASK: u32 = 65535;

// The image on standard input without its watches below these high domains.
fn strip_image(rt: &HostRuntime, mask: u16) {
    let mut image = [0u8; IMAGE_CAPACITY];
    let Ok(n) = console::read_image(rt, &mut image) else {
        return;
    };
    let mut out = [0u8; IMAGE_CAPACITY];
    let s = write_stripped::write_stripped(&image[..n], mask, &mut out);
    console::write_image(
        rt,
        &out,
        write_stripped::stripped_bytes(s),
        write_stripped::stripped_number(s),
        write_stripped::stripped_place(s),
    );
}

fn main(rt: HostRuntime) {
    let Some(mask) = console::argument(&rt, 1, 2, MOST_MASK) else {
        console::tell_usage(
            &rt,
            b"strip MASK < IMAGE > STRIPPED, MASK from 0 to 65535 with a bit for each high domain",
        );
        return;
    };
    strip_image(&rt, mask as u16);
}
