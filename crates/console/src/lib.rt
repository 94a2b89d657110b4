// An inner crate: what the programs share. Input is read whole or not used at all. Standard error reports output that cannot be
// written, and says how a program is used.
#![tactic(auto)]

ghost use Rattle.std.specs.Prelude.{◌<◌, length, take, IfOk, MatchResult};
ghost use Rattle.std.specs.Io.KnownBytes.{Consumes, IsAtEnd};
ghost use Rattle.io.specs.Counts.{IsPrefixLen};
ghost use Rattle.numerals.specs.Numerals.{AtMost};

use image::IMAGE_LIMIT;
use std::env::{Env, FillError};
use std::io;
use std::io::Read;

// A byte more than the longest image, so that a longer one is seen to be too long.
pub const IMAGE_CAPACITY: usize = IMAGE_LIMIT + 1;

// The longest word that a program is called with: a longer one says no number and names no file.
pub const WORD_CAPACITY: usize = 4096;

// How many words a program without arguments is called with: its name.
pub const OWN_NAME: usize = 1;

// There is no whole input to be used: the reading failed after so many bytes, which stand at the front of the buffer, or the
// program is used otherwise than it says. Standard error says which.
#[derive(Clone, Copy, Debug, PartialEq, Eq)]
pub struct NotWhole {
    pub length: usize,
}

// Says on standard error what failed, and why.
pub fn tell_failure(rt: &HostRuntime, what: &[u8], error: io::Error) {
    let _ = rt.stderr().write_all(what);
    let _ = eprintln!(rt; ": {error}");
}

// Reads until the buffer is full, the input ends or a read fails: only a read that answers 0 is the end. Answers how many bytes
// stand at the front of the buffer. A read that fails is reported under the input's name.
pub fn read_whole<R: Read>(
    rt: &HostRuntime,
    name: &[u8],
    input: &mut R,
    buf: &mut [u8],
) -> Result<usize, NotWhole>
    ensures front { MatchResult result (λ n. IsPrefixLen n buf.new) (λ e. IsPrefixLen e.length buf.new) }
    ensures bytes { MatchResult result (λ n. Consumes (R.remaining input.old) (R.remaining input.new) (take n buf.new)) (λ e. Consumes (R.remaining input.old) (R.remaining input.new) (take e.length buf.new)) }
    ensures whole { IfOk result (λ n. n < length buf.new → IsAtEnd (R.remaining input.new)) }
{
    let mut done: usize = 0;
    while done < buf.len() {
        match input.read(&mut buf[done..]) {
            Ok(0) => return Ok(done),
            Ok(more) => done += more,
            Err(error) => {
                tell_failure(rt, name, error);
                return Err(NotWhole { length: done });
            }
        }
    }
    Ok(done)
}

// Says how a program is used.
pub fn tell_usage(rt: &HostRuntime, usage: &[u8]) {
    let _ = eprint!(rt; "usage: ");
    let _ = rt.stderr().write_all(usage);
    let _ = eprintln!(rt; "");
}

// The image on standard input; a read that fails is reported.
pub fn read_image(rt: &HostRuntime, image: &mut [u8]) -> Result<usize, NotWhole>
    ensures { MatchResult result (λ n. IsPrefixLen n image.new) (λ e. IsPrefixLen e.length image.new) }
{
    read_whole(rt, b"standard input", &mut rt.stdin(), image)
}

// How many words the program is called with, its name included.
pub fn word_count(rt: &impl Env) -> usize {
    (0..usize::MAX)
        .find(|i| matches!(rt.arg(*i, &mut []), Err(FillError::NotPresent)))
        .unwrap_or(usize::MAX)
}

// The same for a program without arguments; if it has some, it says how it is used.
pub fn read_sole_image(rt: &HostRuntime, usage: &[u8], image: &mut [u8]) -> Result<usize, NotWhole>
    ensures { MatchResult result (λ n. IsPrefixLen n image.new) (λ e. IsPrefixLen e.length image.new) }
{
    if word_count(rt) != OWN_NAME {
        tell_usage(rt, usage);
        return Err(NotWhole { length: 0 });
    }
    read_image(rt, image)
}

// The number that argument i says, if it is at most `most` and the program is called with this number of words, its name included.
pub fn argument(rt: &impl Env, i: usize, words: usize, most: u32) -> Option<u32>
    ensures { AtMost most result }
{
    if word_count(rt) != words {
        return None;
    }
    let mut digits = [0u8; WORD_CAPACITY];
    let length = rt.arg(i, &mut digits).ok()?;
    numerals::number_of(&digits[..length], most)
}

// Says on standard error why an answer was not written on standard output, if it was not.
pub fn tell_unwritten(rt: &HostRuntime, written: io::Result<()>) {
    if let Err(error) = written {
        tell_failure(rt, b"standard output", error);
    }
}

// All that a program answers, on standard output. A write that fails is reported.
pub fn write_out(rt: &HostRuntime, bytes: &[u8]) {
    tell_unwritten(rt, rt.write_all(bytes));
}

// An image that was written, on standard output; or `refused N PLACE` on standard error. No image is longer than its output
// (`card11`, `card12`, `card13_written`); the test says it where the bytes are lent.
pub fn write_image(rt: &HostRuntime, out: &[u8], end: usize, number: u16, place: usize) {
    if number != 0 {
        let _ = eprintln!(rt; "refused {number} {place}");
        return;
    }
    if let Some(image) = out.get(..end) {
        write_out(rt, image);
    }
}
