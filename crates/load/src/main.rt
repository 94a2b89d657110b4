// Writes the image of a seed and a depth, its two arguments, to standard output (document 02, card 12); a refusal is
// `refused N PLACE` on standard error, and nothing is written. Arguments are decimal numbers of 32 bits.
#![tactic(auto)]

use write_load::OUTPUT_LENGTH;

const MOST: u32 = u32::MAX;

fn argument(rt: &HostRuntime, i: usize) -> Option<u32> {
    console::argument(rt, i, 3, MOST)
}

fn tell_usage(rt: &HostRuntime) {
    console::tell_usage(
        rt,
        b"load SEED DEPTH > IMAGE, two numbers from 0 to 4294967295",
    );
}

fn main(rt: HostRuntime) {
    let Some(seed) = argument(&rt, 1) else {
        return tell_usage(&rt);
    };
    let Some(depth) = argument(&rt, 2) else {
        return tell_usage(&rt);
    };
    let mut out = [0u8; OUTPUT_LENGTH];
    let a = write_load::generate(seed, depth as usize, &mut out);
    console::write_image(
        &rt,
        &out,
        write_load::load_bytes(a),
        write_load::load_number(a),
        0,
    );
}
