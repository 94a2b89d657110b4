// Generated images (document 02, card 12): a load that every station can repeat. Equal seeds and depths give equal bytes,
// whatever the output held.
#![tactic(auto)]

ghost use Rattle.std.specs.Prelude.{◌≡◌, ◌+◌, ◌-◌, ◌≤◌, ◌<◌, length};
ghost use Rattle.image.specs.Limits.{term_limit};
ghost use Rattle.base_bytes.specs.Bytes.{over};
ghost use Rattle.image_written.specs.Generated.{next};
ghost use Rattle.write_load.specs.Loads.{loaded, error_number, load_number, load_bytes};
ghost use Rattle.write_load.specs.Growing.{head_bytes, number_follows, Put, Capacity, Grew};

use calculus::WORD_SIZE;
use read_records::kinds::{ARITHMETIC, NUMBER, NUMBER_TYPE, PRINT, SEQUENCE, UNIT_TYPE};
use read_records::numbers::TypeNo;
use write_records::{Done, put_record};
use write_sections::write_domains;

// The numbers of the draw and the limits of card 12.
const MULTIPLIER: u64 = 1664525;

const INCREMENT: u64 = 1013904223;

const DIVISOR: u32 = 16777216;

pub const DEPTH_LIMIT: usize = 9;

pub const OUTPUT_LENGTH: usize = 16384;

// What c modulo 4 stands for: 0 a number; 1 plus and 2 minus; 3 a print and what follows it, from depth 3 on, which is 2 where
// depths are counted from 0.
const CHOICES: u32 = 4;

const A_NUMBER: u32 = 0;

const A_PRINT: u32 = 3;

const PRINT_DEPTH: usize = 2;

// The refusals of card 12: a depth of 0 or over 9; an output under 16,384 bytes.
const WRONG_DEPTH: u16 = 21;

const SHORT_OUTPUT: u16 = 22;

// Domain 0 alone, which names itself; type 0 is unit, type 1 number.
const ALONE: u16 = 1;

const OF_UNIT: TypeNo = TypeNo(0);

const OF_NUMBER: TypeNo = TypeNo(1);

// Why no image was written: a depth of 0 or over 9; an output that is too short.
#[derive(Clone, Copy)]
pub enum LoadError {
    WrongDepth,
    ShortOutput,
}

impl LoadError {
    // Its number (document 02, card 12).
    pub fn number(self) -> u16
        ensures { result ≡ error_number self }
    {
        match self {
            Self::WrongDepth => WRONG_DEPTH,
            Self::ShortOutput => SHORT_OUTPUT,
        }
    }
}

// The state of the draws, and how far the output is written.
#[derive(Clone, Copy)]
pub struct Growth {
    pub state: u32,
    pub done: Done,
}

impl Growth {
    // One draw more.
    fn drawn(self) -> Self
        ensures { (result.state ≡ next self.state) × (result.done ≡ self.done) }
    {
        Self {
            state: draw(self.state),
            ..self
        }
    }

    // The number of the last term that is written.
    fn last(self) -> u16
        requires { (0 < self.done.terms) × (self.done.terms ≤ term_limit) }
        ensures { result ≡ self.done.terms - 1 }
    {
        self.done.last_term().0
    }

    // One term more: its record, of a kind, with these numbers for its fields.
    fn put_term(self, out: &mut [u8], kind: u16, numbers: &[u16]) -> Self
        requires { (length numbers.now ≤ 4) × (self.done.at + 12 ≤ length out.old) × (self.done.terms < term_limit) }
        ensures { Put out.old self out.new result kind numbers.now }
    {
        Self {
            done: self.done.put_term(out, kind, numbers),
            ..self
        }
    }

    // A number is the next draw.
    fn put_number(self, out: &mut [u8]) -> Self
        requires { (self.done.at + 12 ≤ length out.old) × (self.done.terms < term_limit) }
        ensures { Grew 0 out.old self out.new result }
    {
        let here = self.drawn();
        here.put_term(
            out,
            NUMBER,
            &[OF_NUMBER.0, (here.state / DIVISOR) as u16, 0],
        )
    }

    // A tree of a depth, which is one less than the card counts: left is drawn first, records are written children first. A sum
    // or a difference is of two trees, a sequence of the print of a tree and of another.
    fn grow(self, out: &mut [u8], depth: usize) -> Self
        requires { Capacity out.old self depth }
        ensures { Grew depth out.old self out.new result }
    {
        if depth == 0 {
            return self.put_number(out);
        }
        let here = self.drawn();
        let c = here.state / DIVISOR % CHOICES;
        if is_number(c, depth) {
            return here.put_number(out);
        }
        if c == A_PRINT {
            let inner = here.grow(out, depth - 2);
            let first = inner.put_term(out, PRINT, &[OF_UNIT.0, inner.last()]);
            let second = first.grow(out, depth - 1);
            return second.put_term(out, SEQUENCE, &[OF_NUMBER.0, first.last(), second.last()]);
        }
        let left = here.grow(out, depth - 1);
        let right = left.grow(out, depth - 1);
        let op = (c - 1) as u16;
        right.put_term(
            out,
            ARITHMETIC,
            &[OF_NUMBER.0, op, left.last(), right.last()],
        )
    }
}

// The state after a draw.
fn draw(state: u32) -> u32
    ensures { result ≡ next state }
{
    ((MULTIPLIER * (state as u64) + INCREMENT) % WORD_SIZE) as u32
}

// Does a number follow? For c = 0, and for c = 3 at a depth that is too small for a print.
fn is_number(c: u32, depth: usize) -> bool
    ensures { result ≡ number_follows c depth }
{
    c == A_NUMBER || c == A_PRINT && depth < PRINT_DEPTH
}

// The domain and the two types that every generated image has, and the offset behind them.
fn put_head(out: &mut [u8]) -> usize
    requires { length head_bytes ≤ length out.old }
    ensures { (result ≡ length head_bytes) × (out.new ≡ over 0 head_bytes out.old) }
{
    let behind_domain = write_domains(&[ALONE], out);
    let behind_unit = put_record(out, behind_domain, UNIT_TYPE, &[]);
    put_record(out, behind_unit, NUMBER_TYPE, &[])
}

// The image of a seed and a depth is written into the output, and its length is the answer. What stands behind it stays.
pub fn generate(seed: u32, depth: usize, out: &mut [u8]) -> Result<usize, LoadError>
    ensures { (record { answer = result; output = out.new }) ≡ loaded seed depth out.old }
{
    if depth == 0 || DEPTH_LIMIT < depth {
        return Err(LoadError::WrongDepth);
    }
    if out.len() < OUTPUT_LENGTH {
        return Err(LoadError::ShortOutput);
    }
    let behind_head = put_head(out);
    let start = Growth {
        state: seed,
        done: Done {
            at: behind_head,
            terms: 0,
        },
    };
    Ok(start.grow(out, depth - 1).done.at)
}

// The number of an answer (document 02, card 12), 0 where an image was written.
pub fn load_number(answer: Result<usize, LoadError>) -> u16
    ensures { result ≡ load_number answer }
{
    match answer {
        Ok(_) => 0,
        Err(why) => why.number(),
    }
}

// How many bytes were written.
pub fn load_bytes(answer: Result<usize, LoadError>) -> usize
    ensures { result ≡ load_bytes answer }
{
    answer.unwrap_or(0)
}
