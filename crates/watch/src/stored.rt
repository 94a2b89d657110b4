// Stored images: each pair of arguments is a budget and a file. Prints a line with both, then the validator's verdict, then the
// listing of the image's call. A file that cannot be read is reported, and the next pair is run; where the output cannot be
// written, nothing more is run.
use crate::conformance::print_listing;
use console::{IMAGE_CAPACITY, WORD_CAPACITY};
use image::{REPORT_LENGTH, WORK_LENGTH};
use std::env::{Env, FillError};
use std::fs::File;
use std::io;
use std::io::ErrorKind;

const MOST_BUDGET: u32 = u32::MAX;

fn print_verdict(rt: &impl Print, image: &[u8]) -> io::Result<()> {
    let v = validator::validate(image, WORK_LENGTH, REPORT_LENGTH);
    let mut out = [0u8; listing::REFUSAL_LENGTH];
    let end = listing::put_verdict(&mut out, v);
    rt.write_all(&out[..end])
}

// A file's name is text.
fn open(rt: &HostRuntime, path: &[u8]) -> io::Result<File> {
    let Ok(name) = std::str::from_utf8(path) else {
        return Err(io::Error::new(ErrorKind::InvalidInput, "the name is not UTF-8"));
    };
    File::open(rt, name)
}

// Fails where the output cannot be written; a file that cannot be read is reported.
fn run_file(rt: &HostRuntime, path: &[u8], budget: u32) -> io::Result<()> {
    let mut file = match open(rt, path) {
        Ok(file) => file,
        Err(error) => {
            console::tell_failure(rt, path, error);
            return Ok(());
        }
    };
    let mut image = [0u8; IMAGE_CAPACITY];
    let read = console::read_whole(rt, path, &mut file, &mut image);
    drop(file);
    let Ok(n) = read else {
        return Ok(());
    };
    print_verdict(rt, &image[..n])?;
    print_listing(rt, &image[..n], budget)
}

pub fn tell_usage(rt: &HostRuntime) {
    console::tell_usage(
        rt,
        b"watch < IMAGE, or watch BUDGET FILE .., BUDGET from 0 to 4294967295",
    );
}

// Why an argument was not put into its buffer.
fn argument_error(error: FillError) -> io::Error {
    match error {
        FillError::NotPresent => io::Error::new(ErrorKind::InvalidInput, "Invalid argument"),
        FillError::TooLong => io::Error::new(ErrorKind::InvalidFilename, "File name too long"),
    }
}

// The image whose budget and whose file these arguments name. Fails where the output cannot be written. A budget that is too long for
// its buffer is no number.
fn run_pair(rt: &HostRuntime, budget_arg: usize, file_arg: usize) -> io::Result<()> {
    let mut digits = [0u8; WORD_CAPACITY];
    let mut path = [0u8; WORD_CAPACITY];
    let length = match rt.arg(file_arg, &mut path) {
        Ok(length) => length,
        Err(error) => {
            console::tell_failure(rt, b"arg", argument_error(error));
            return Ok(());
        }
    };
    let Ok(count) = rt.arg(budget_arg, &mut digits) else {
        tell_usage(rt);
        return Ok(());
    };
    let Some(budget) = numerals::number_of(&digits[..count], MOST_BUDGET) else {
        tell_usage(rt);
        return Ok(());
    };
    rt.write_all(&digits[..count])?;
    rt.write_all(b" ")?;
    rt.write_all(&path[..length])?;
    rt.write_all(b"\n")?;
    run_file(rt, &path[..length], budget)
}

pub fn run_pairs(rt: &HostRuntime) -> io::Result<()> {
    let pairs = console::word_count(rt) / 2;
    for k in 0..pairs {
        run_pair(rt, 2 * k + 1, 2 * k + 2)?;
    }
    Ok(())
}
