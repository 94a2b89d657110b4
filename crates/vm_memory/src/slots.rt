// Slots, a word each: env + 2^16 * pc + 2^26 * kind + 2^28 * held. The slot of what is d unfinished terms inside a body is
// number `frames` - d, with the body's register of that name. It is the activation frame of a body, or holds the value of an
// operand that waits, or both: a call's frame leaves the value as it is.
ghost use Rattle.std.specs.Prelude.{◌≡◌, ℕ, ◌+◌, ◌-◌, ◌*◌, ◌/◌, ◌%◌, ◌<◌, ◌≤◌, length, set};
ghost use Rattle.image.specs.Limits.{depth_limit};
ghost use Rattle.base_bytes.specs.Memory.{memory_length, beside_base};
ghost use Rattle.vm_machine.specs.Memory.{slot_word, slot_env, slot_pc, slot_kind, slot_held, slot_in, slot_at, put_slot, put_waiting, put_return, put_advice, next_binding, end_binding, put_digits, digits_at, put_keep, put_match, keep_frame, pointcut_frame, held_stack, beside_at_of, frame_bound, held_size};
ghost use Rattle.vm_machine.specs.Registers.{frame_slots};
ghost use Rattle.vm_code.specs.Words.{return_pc};
ghost use Rattle.vm_code.specs.Values.{tag_place};
ghost use Rattle.vm_memory.specs.View.{memory_of, Holds};

use crate::words::{ABOVE, BESIDE, SLOTS, above, put_word, word};
use vm_words::code::{OPERANDS, in_field};
use vm_words::value::ENVIRONMENTS;

// The kinds of a frame: a call leaves one, a mark, a pointcut or match, and a keep (card 6).
// Kept: a kind is the number that stands in a slot's two bits (`slot_kind`, which the machine's definition reads).
pub const CALL_FRAME: u64 = 0;

pub const ADVICE_FRAME: u64 = 1;

const POINTCUT_FRAME: u64 = 2;

pub const KEEP_FRAME: u64 = 3;

// The parts of a slot's word: where each begins, and how many numbers it holds. What is held begins where a value's tag does.
const PC: u64 = ENVIRONMENTS;

const PCS: u64 = OPERANDS;

const KIND: u64 = PC * PCS;

const KINDS: u64 = 4;

// The word holds the digits modulo DIGITS, and the byte beside holds the rest.
const DIGITS: u64 = 68719476736;

const BYTES: u64 = 256;

// A mark's frame holds bindings: where the next one and the end of their range begin, in the word and in what is held.
const NEXT: u64 = 4294967296;

const BINDINGS: u64 = 65536;

const END: u64 = NEXT * BINDINGS;

const HELD_NEXT: u64 = NEXT / ABOVE;

const HELD_END: u64 = END / ABOVE;

fn slot_word(kind: u64, pc: usize, env: usize, held: u64) -> u64
    requires { (kind < 3) × (pc ≤ return_pc) × (env < 65536) × (held < held_size) }
    ensures { result ≡ slot_word kind pc env held }
{
    (env as u64) + PC * (pc as u64) + KIND * kind + ABOVE * held
}

pub fn slot_env(f: u64) -> usize
    ensures { result ≡ slot_env f }
{
    (f % ENVIRONMENTS) as usize
}

pub fn slot_pc(f: u64) -> usize
    ensures { result ≡ slot_pc f }
{
    in_field::<PC, PCS>(f) as usize
}

pub fn slot_kind(f: u64) -> u64
    ensures { result ≡ slot_kind f }
{
    in_field::<KIND, KINDS>(f)
}

fn slot_held(f: u64) -> u64
    ensures { result ≡ slot_held f }
{
    f / ABOVE
}

// The place of a slot. (The base is added first, so that the subtraction of d is exact. What is resumed may have a larger `frames`
// than there are slots, until d is taken from it: so `frames` may be any number that keeps the place inside the tables.)
fn slot_in(frames: usize, d: usize) -> usize
    requires { (frames ≤ frame_bound) × (d ≤ depth_limit + 2) }
    ensures { result ≡ slot_in frames d }
{
    SLOTS + frames - d
}

pub fn slot_at(work: &[u8], frames: usize, d: usize) -> u64
    requires { (memory_length ≤ length work.now) × (frames ≤ frame_bound) × (d ≤ depth_limit + 2) }
    ensures { result ≡ slot_at (memory_of work.now) frames d }
{
    word(work, slot_in(frames, d))
}

fn put_slot(work: &mut [u8], frames: usize, d: usize, w: u64)
    requires { (memory_length ≤ length work.old) × (frames ≤ frame_bound) × (d ≤ depth_limit + 2) }
    ensures { Holds (put_slot frames d w (memory_of work.old)) work.old work.new }
{
    put_word(work, slot_in(frames, d), w);
}

// A value waits there.
pub fn put_waiting(work: &mut [u8], frames: usize, d: usize, v: u64)
    requires { (memory_length ≤ length work.old) × (frames ≤ frame_bound) × (d ≤ depth_limit + 2) }
    ensures { Holds (put_waiting frames d v (memory_of work.old)) work.old work.new }
{
    put_slot(work, frames, d, above(v, 0));
}

// A call's frame is there: the instruction that called and its environment.
pub fn put_return(work: &mut [u8], frames: usize, d: usize, pc: usize, env: usize)
    requires { (memory_length ≤ length work.old) × (frames ≤ frame_bound) × (d ≤ depth_limit + 2) × (pc ≤ return_pc) × (env < 65536) }
    ensures { Holds (put_return frames d pc env (memory_of work.old)) work.old work.new }
{
    let held = slot_held(slot_at(work, frames, d));
    put_slot(work, frames, d, slot_word(CALL_FRAME, pc, env, held));
}

// A mark's frame is there: the mark, its environment, and the bindings that are left, two bytes for each end of their
// range (card 4): next from the word's bit 32 on, end from its bit 48 on.
pub fn put_advice(
    work: &mut [u8],
    frames: usize,
    d: usize,
    pc: usize,
    env: usize,
    next: usize,
    end: usize,
)
    requires { (memory_length ≤ length work.old) × (frames ≤ frame_slots) × (d ≤ depth_limit + 2) × (pc ≤ return_pc) × (env < 65536) × (next < 65536) × (end < 65536) }
    ensures { Holds (put_advice frames d pc env next end (memory_of work.old)) work.old work.new }
{
    let held = HELD_NEXT * (next as u64) + HELD_END * (end as u64);
    put_slot(work, frames, d, slot_word(ADVICE_FRAME, pc, env, held));
}

pub fn next_binding(f: u64) -> usize
    ensures { result ≡ next_binding f }
{
    in_field::<NEXT, BINDINGS>(f) as usize
}

pub fn end_binding(f: u64) -> usize
    ensures { result ≡ end_binding f }
{
    in_field::<END, BINDINGS>(f) as usize
}

// The byte beside slot i becomes another.
fn put_beside(work: &mut [u8], i: usize, byte: u64)
    requires { (memory_length ≤ length work.old) × (i < frame_slots) × (byte < 256) }
    ensures { work.new ≡ set work.old (beside_base + i) byte }
{
    work[BESIDE + i] = byte as u8;
}

// A pointcut's frame is there: it, its environment, and the digits of the labels that are done.
pub fn put_digits(work: &mut [u8], frames: usize, d: usize, pc: usize, env: usize, digits: u64)
    requires { (memory_length ≤ length work.old) × (frames ≤ frame_slots) × (0 < d) × (d ≤ depth_limit + 2) × (d ≤ frames) × (pc ≤ return_pc) × (env < 65536) }
    ensures { Holds (put_digits frames d pc env digits (memory_of work.old)) work.old work.new }
{
    put_slot(
        work,
        frames,
        d,
        slot_word(POINTCUT_FRAME, pc, env, digits % DIGITS),
    );
    put_beside(work, frames - d, digits / DIGITS % BYTES);
}

// The digits in the slot of a body; f is the slot's word.
pub fn digits_at(work: &[u8], frames: usize, f: u64) -> u64
    requires { (memory_length ≤ length work.now) × (frames < frame_slots) }
    ensures { result ≡ digits_at (memory_of work.now) frames f }
{
    slot_held(f) + DIGITS * u64::from(work[BESIDE + frames])
}

// The word of a keep's frame (card 6): nothing is held.
fn keep_word(pc: usize, env: usize) -> u64
    requires { (pc ≤ return_pc) × (env < 65536) }
    ensures { result ≡ slot_word keep_frame pc env 0 }
{
    (env as u64) + PC * (pc as u64) + KIND * KEEP_FRAME
}

// A keep's frame is there: it and its environment.
pub fn put_keep(work: &mut [u8], frames: usize, d: usize, pc: usize, env: usize)
    requires { (memory_length ≤ length work.old) × (frames ≤ frame_bound) × (d ≤ depth_limit + 2) × (pc ≤ return_pc) × (env < 65536) }
    ensures { Holds (put_keep frames d pc env (memory_of work.old)) work.old work.new }
{
    put_slot(work, frames, d, keep_word(pc, env));
}

// The word of a match's frame: it, its environment, and its stack v.
pub fn match_word(pc: usize, env: usize, v: u64) -> u64
    requires { (pc ≤ return_pc) × (env < 65536) }
    ensures { result ≡ slot_word pointcut_frame pc env (v / tag_place) }
{
    slot_word(POINTCUT_FRAME, pc, env, v / ABOVE)
}

// A match's frame is there, with the word f and a byte beside.
pub fn put_match(work: &mut [u8], frames: usize, d: usize, f: u64, byte: u64)
    requires { (memory_length ≤ length work.old) × (frames ≤ frame_slots) × (0 < d) × (d ≤ depth_limit + 2) × (d ≤ frames) × (byte < 256) }
    ensures { (pc env v : ℕ) → f ≡ slot_word pointcut_frame pc env (v / tag_place) → Holds (put_match frames d pc env v byte (memory_of work.old)) work.old work.new }
{
    put_slot(work, frames, d, f);
    put_beside(work, frames - d, byte);
}

// The stack that a match's slot with word f holds.
pub fn held_stack(f: u64) -> u64
    ensures { result ≡ held_stack f }
{
    ABOVE * slot_held(f)
}

// The byte beside the slot of a body.
pub fn byte_beside(work: &[u8], frames: usize) -> u64
    requires { (memory_length ≤ length work.now) × (frames < frame_slots) }
    ensures { (result ≡ beside_at_of (memory_of work.now) frames) × (result < 256) }
{
    u64::from(work[BESIDE + frames])
}
