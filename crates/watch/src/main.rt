// Calls the engine as the bench sheet says (document 01) and prints the listing of the image on standard input. With arguments
// it prints verdict and listing of stored images, each with a budget of its own.
#![tactic(auto)]

mod conformance;
mod stored;

use console::{IMAGE_CAPACITY, OWN_NAME};

const BUDGET: u32 = 100000;

fn list_input(rt: &HostRuntime) {
    let mut image = [0u8; IMAGE_CAPACITY];
    let Ok(n) = console::read_image(rt, &mut image) else {
        return;
    };
    console::tell_unwritten(rt, conformance::print_listing(rt, &image[..n], BUDGET));
}

// The program's name, and then nothing or pairs.
fn main(rt: HostRuntime) {
    let words = console::word_count(&rt);
    if words == OWN_NAME {
        return list_input(&rt);
    }
    if words % 2 == 0 {
        return stored::tell_usage(&rt);
    }
    console::tell_unwritten(&rt, stored::run_pairs(&rt));
}
