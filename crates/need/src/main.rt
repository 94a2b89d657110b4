// Reads an image from standard input and prints `refused N PLACE`, or the eleven numbers of card 10 (document 02), a line each.
#![tactic(auto)]

use console::IMAGE_CAPACITY;
use image_needs::{Forecast, Needs};
use std::io;

fn tell_numbers(rt: &impl Print, n: Needs) -> io::Result<()> {
    println!(rt; "steps {}", n.steps)?;
    println!(rt; "bindings {}", n.bindings)?;
    println!(rt; "other-bindings {}", n.other_bindings)?;
    println!(rt; "pieces {}", n.pieces)?;
    println!(rt; "other-pieces {}", n.other_pieces)?;
    println!(rt; "cells {}", n.cells)?;
    println!(rt; "other-cells {}", n.other_cells)?;
    println!(rt; "labels {}", n.labels)?;
    println!(rt; "advice {}", n.advice)?;
    println!(rt; "frames {}", n.frames)?;
    println!(rt; "log {}", n.log)
}

fn told(rt: &impl Print, f: Forecast) -> io::Result<()> {
    match f {
        Ok(known) => tell_numbers(rt, known),
        Err(_) => {
            let number = image_needs::forecast_number(f);
            let place = image_needs::forecast_place(f);
            println!(rt; "refused {number} {place}")
        }
    }
}

fn main(rt: HostRuntime) {
    let mut image = [0u8; IMAGE_CAPACITY];
    let Ok(n) = console::read_sole_image(&rt, b"need < IMAGE", &mut image) else {
        return;
    };
    console::tell_unwritten(&rt, told(&rt, needs::forecast_image(&image[..n])));
}
