// Values as words: a tag of 4 bits and a body of 32 bits, 2^28 * tag + 2^32 * body; the low 28 bits say nothing, so a word
// of a table that holds a value is one.
ghost use Rattle.std.specs.Prelude.{◌≡◌, ◌%◌, ◌<◌};
ghost use Rattle.calculus.specs.Numbers.{is_less, is_equal, frame_byte};
ghost use Rattle.calculus.specs.Numbers as numbers;
ghost use Rattle.calculus.specs.Limits.{word_size};
ghost use Rattle.vm_code.specs.Values.{tag_of, body_of, number_value, truth_value, function_value, object_value, bottom_value, kept_value, tag_count};
ghost use Rattle.vm_code.specs.Values as defined;
ghost use Rattle.vm_code.specs.Words.{term_count};

use crate::code::in_field;
use crate::terms::TERMS;
use calculus::{SIGN_BIT, WORD_SIZE};
use read_records::numbers::TermNo;

// Where the tag and the body begin, and how many tags there are.
pub const TAG: u64 = 268435456;

pub const BODY: u64 = TAG * TAGS;

pub const TAGS: u64 = 16;

// The tags.
// Kept: a tag is the number that stands in a value's four bits (`tag_of`, which the machine's definition reads).
pub const UNIT: u64 = 0;

pub const TRUTH: u64 = 1;

pub const NUMBER: u64 = 2;

const FUNCTION: u64 = 3;

pub const PAIR: u64 = 4;

pub const CELL: u64 = 5;

pub const LABEL: u64 = 6;

pub const POINTCUT: u64 = 7;

pub const ADVICE: u64 = 8;

const OBJECT: u64 = 9;

// The empty stack, and one whose top entry is a piece (card 6).
const BOTTOM: u64 = 10;

pub const KEPT: u64 = 11;

// The values of the two truths.
const FALSE: u64 = TAG * TRUTH;

const TRUE: u64 = TAG * TRUTH + BODY;

// In the body of a function or an object the environment begins here, and is below this.
pub const ENVIRONMENT: u64 = 65536;

pub const ENVIRONMENTS: u64 = 65536;

pub fn value(tag: u64, body: u64) -> u64
    requires { (tag < tag_count) × (body < word_size) }
    ensures { result ≡ defined.value tag body }
{
    TAG * tag + BODY * body
}

pub fn tag(v: u64) -> u64
    ensures { result ≡ tag_of v }
{
    in_field::<TAG, TAGS>(v)
}

pub fn body(v: u64) -> u64
    ensures { result ≡ body_of v }
{
    v / BODY
}

fn truth(b: bool) -> u64
    ensures { result ≡ truth_value b }
{
    if b { TRUE } else { FALSE }
}

// A function's value: its environment, and the target of its body.
pub fn function(env: usize, target: usize) -> u64
    requires { (env < 65536) × (target < 65536) }
    ensures { result ≡ function_value env target }
{
    value(FUNCTION, ENVIRONMENT * (env as u64) + target as u64)
}

// An object's value: its environment, and its term (card 3).
pub fn object(env: usize, term: TermNo) -> u64
    requires { env < 65536 }
    ensures { result ≡ object_value env term.0 }
{
    value(OBJECT, ENVIRONMENT * (env as u64) + u64::from(term.0))
}

// The term of an object's value.
pub fn object_term(v: u64) -> TermNo
    ensures { result.0 ≡ body_of v % term_count }
{
    TermNo((body(v) % (TERMS as u64)) as u16)
}

pub fn bottom() -> u64
    ensures { result ≡ bottom_value }
{
    value(BOTTOM, 0)
}

pub fn kept(piece: usize) -> u64
    requires { piece < 65536 }
    ensures { result ≡ kept_value piece }
{
    value(KEPT, piece as u64)
}

// The ends of the range of numbers, and -1, as patterns of 32 bits.
const LOWEST: u64 = SIGN_BIT;

const HIGHEST: u64 = SIGN_BIT - 1;

const MINUS_ONE: u64 = WORD_SIZE - 1;

// Two patterns with their sign bits flipped that sum to this or more sum past the highest number.
const TOO_HIGH: u64 = LOWEST + WORD_SIZE;

// A pattern with its sign bit flipped: signed numbers are ordered as these are.
fn flipped(x: u64) -> u32
    requires { x < word_size }
    ensures { result ≡ numbers.flipped x }
{
    (x as u32).wrapping_add(LOWEST as u32)
}

// Sums and differences stop at the ends of the range; inside it they are those of the patterns.
fn sum(x: u64, y: u64) -> u64
    requires { (x < word_size) × (y < word_size) }
    ensures { (result ≡ numbers.sum x y) × (result < word_size) }
{
    let s = u64::from(flipped(x)) + u64::from(flipped(y));
    if s < LOWEST {
        return LOWEST;
    }
    if s < TOO_HIGH {
        return (x + y) % WORD_SIZE;
    }
    HIGHEST
}

fn difference(x: u64, y: u64) -> u64
    requires { (x < word_size) × (y < word_size) }
    ensures { (result ≡ numbers.difference x y) × (result < word_size) }
{
    let s = u64::from(flipped(x)) + LOWEST;
    let t = u64::from(flipped(y));
    if s < t {
        return LOWEST;
    }
    if s - t < WORD_SIZE {
        return (x + (WORD_SIZE - y)) % WORD_SIZE;
    }
    HIGHEST
}

fn less(x: u64, y: u64) -> bool
    requires { (x < word_size) × (y < word_size) }
    ensures { result ≡ is_less x y }
{
    flipped(x) < flipped(y)
}

pub fn plus(x: u64, y: u64) -> u64
    ensures { result ≡ number_value (numbers.sum (body_of x) (body_of y)) }
{
    value(NUMBER, sum(body(x), body(y)))
}

pub fn minus(x: u64, y: u64) -> u64
    ensures { result ≡ number_value (numbers.difference (body_of x) (body_of y)) }
{
    value(NUMBER, difference(body(x), body(y)))
}

pub fn is_less(x: u64, y: u64) -> u64
    ensures { result ≡ truth_value (is_less (body_of x) (body_of y)) }
{
    truth(less(body(x), body(y)))
}

pub fn is_equal(x: u64, y: u64) -> u64
    ensures { result ≡ truth_value (is_equal (body_of x) (body_of y)) }
{
    truth(body(x) == body(y))
}

// The byte of the frame at index n, or -1 where n is negative or not below the frame's length.
fn byte_at(frame: &[u8], n: u64) -> u64
    ensures { (result ≡ frame_byte frame.now n) × (result < word_size) }
{
    let at = n as usize;
    if n < LOWEST && at < frame.len() {
        u64::from(frame[at])
    } else {
        MINUS_ONE
    }
}

// The same from an index that is a value, as a value.
pub fn frame_byte(frame: &[u8], x: u64) -> u64
    ensures { result ≡ number_value (frame_byte frame.now (body_of x)) }
{
    value(NUMBER, byte_at(frame, body(x)))
}
