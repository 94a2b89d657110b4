// A pointcut is begun, or a child of it is worked out: its children from there on.
ghost use Rattle.std.specs.Prelude.{◌≡◌, true, List, ℕ, ◌+◌, ◌≤◌, ◌<◌, length};
ghost use Rattle.calculus.specs.Limits.{piece_limit};
ghost use Rattle.base_bytes.specs.Memory.{memory_length};
ghost use Rattle.vm_code.specs.Values.{pointcut_tag};
ghost use Rattle.vm_code.specs.Words.{term_count, return_pc, count_of, depth_of};
ghost use Rattle.vm_machine.specs.Registers.{frame_slots};
ghost use Rattle.vm_machine.specs.Memory.{label_set, binding_places};
ghost use Rattle.vm_machine.specs.States.{judged};
ghost use Rattle.vm_machine.specs.Fetch.{code_at};
ghost use Rattle.vm_machine.specs.Fits.{PoolFits};
ghost use Rattle.vm_machine.specs.Reduce.{new_piece};
ghost use Rattle.vm_machine.specs.Turn.{labels_from};
ghost use Rattle.vm_memory.specs.View.{memory_of};
ghost use Rattle.vm_registers.specs.Phases.{Phase};
ghost use Rattle.vm_labels.specs.PointcutChildren.{FramesAfter, child_fields, child_begun, resumes_other, labelled};
ghost use Rattle.vm_labels.specs.PointcutChildren as parts;

use crate::children::{child_fields, take_labels, term_at};
use crate::entry::entry_from;
use crate::{Done, Part};
use calculus::PIECE_LIMIT;
use calculus::outcomes::FRAMES;
use image::POINTCUT_LIMIT;
use vm_machine::Regs;
use vm_memory::labels::{LABELS, digit_count, label_set, with_digit};
use vm_memory::slots::{digits_at, put_digits, slot_env, slot_pc};
use vm_memory::words::BINDING_PLACES;
use vm_registers::pieces::new_piece;
use vm_registers::pools::{has_capacity, pieces_out, quota_of};
use vm_registers::regs::{FUEL_BIAS, halt, same, spent_or, stuck};
use vm_words::classes;
use vm_words::code::{class_of, count_of, depth_of};
use vm_words::terms::instruction;
use vm_words::value::{POINTCUT, body};

// The digits of no labels.
const NO_DIGITS: u64 = 1;

// All children are done: the pointcut with word w is made.
fn make_pointcut(work: &mut [u8], r: Regs, w: u64, digits: u64) -> Regs
    requires { (memory_length ≤ length work.old) × (r.frames ≤ frame_slots) × PoolFits piece_limit r.pools.pieces }
    ensures { Phase (λ S. judged w S (new_piece w pointcut_tag 0 (label_set (count_of w) digits 0) S)) work.old work.new r result }
{
    if r.frames <= depth_of(w) {
        return halt(r, FRAMES);
    }
    if r.fuel <= FUEL_BIAS {
        let h = quota_of(w);
        let p = r.pools;
        return halt(
            r,
            spent_or(has_capacity(p.pieces, h, 1, PIECE_LIMIT), pieces_out(h)),
        );
    }
    new_piece(work, r, w, POINTCUT, 0, label_set(count_of(w), digits))
}

// The next child is begun: it is a body of its own.
fn begin_child(code: &[u64], fields: &[u8], work: &mut [u8], r: Regs, w: u64, done: Done) -> Regs
    requires { (term_count ≤ length code.now) × (memory_length ≤ length work.old) × (r.pc ≤ return_pc) × (r.env < binding_places) × (depth_of w + 1 < r.frames) × (r.frames ≤ frame_slots + depth_of w) × (done.count < count_of w) }
    ensures { (image : List ℕ) → fields.now ≡ child_fields image w → Phase (child_begun (record { code = code.entry.now; image = image }) r.pc w (record { count = done.count; digits = done.digits })) work.old work.new r result }
{
    let frames = r.frames - (depth_of(w) + 1);
    put_digits(work, frames + 1, 1, r.pc, r.env, done.digits);
    let mut q = same(r);
    q.frames = frames;
    q.pc = entry_from(code, term_at(fields, done.count));
    q
}

// The children of the pointcut at hand, from those on that are done.
fn labels_from(code: &[u64], image: &[u8], work: &mut [u8], r: Regs, from: Done) -> Regs
    requires { (return_pc < length code.now) × (memory_length ≤ length work.old) × (r.pc ≤ return_pc) × (r.env < binding_places) × (r.frames ≤ frame_slots + depth_of (code_at (record { code = code.now; image = image.now }) r.pc)) × PoolFits piece_limit r.pools.pieces × FramesAfter (labels_from (record { code = code.now; image = image.now }) r.pc from.count from.digits) work.old r }
    ensures { Phase (labels_from (record { code = code.entry.now; image = image.now }) r.pc from.count from.digits) work.old work.new r result }
{
    let pc = r.pc;
    let w = instruction(code, pc);
    let fields = child_fields(image, w);
    let done = take_labels(code, fields, work, r.env, w, from);
    if count_of(w) <= done.count {
        return make_pointcut(work, r, w, done.digits);
    }
    if r.frames <= depth_of(w) + 1 {
        return halt(r, FRAMES);
    }
    begin_child(code, fields, work, r, w, done)
}

// Where they go on, of a pointcut that is begun or resumed.
fn part_of(code: &[u64], work: &[u8], r: Regs, resumed: bool, f: u64) -> Part
    requires { (term_count ≤ length code.now) × (memory_length ≤ length work.now) × (r.frames ≤ frame_slots) × (resumed ≡ true → r.frames < frame_slots) }
    ensures { (image : List ℕ) → result ≡ parts.part_of (record { code = code.entry.now; image = image }) (memory_of work.now) resumed f r }
{
    if resumed {
        let pc = slot_pc(f);
        let d = digits_at(work, r.frames, f);
        let done = Done {
            count: digit_count(POINTCUT_LIMIT, d) + 1,
            digits: with_digit(d, body(r.acc) % LABELS),
        };
        return Part {
            pc: pc,
            env: slot_env(f) % BINDING_PLACES,
            frames: r.frames + (depth_of(instruction(code, pc)) + 1),
            done: done,
        };
    }
    let none = Done {
        count: 0,
        digits: NO_DIGITS,
    };
    Part {
        pc: r.pc,
        env: r.env,
        frames: r.frames,
        done: none,
    }
}

// What is resumed is no pointcut.
fn resumes_other(resumed: bool, w: u64) -> bool
    ensures { result ≡ resumes_other resumed w }
{
    resumed && class_of(w) != classes::POINTCUT
}

// A pointcut is begun; or, resumed, a child of it is worked out, and f is the word of its slot.
pub fn labels(code: &[u64], image: &[u8], work: &mut [u8], r: Regs, resumed: bool, f: u64) -> Regs
    requires { (return_pc < length code.now) × (memory_length ≤ length work.old) × (r.pc ≤ return_pc) × (r.env < binding_places) × (r.frames ≤ frame_slots) × (resumed ≡ true → r.frames < frame_slots) × PoolFits piece_limit r.pools.pieces × FramesAfter (labelled (record { code = code.now; image = image.now }) resumed f) work.old r }
    ensures { Phase (labelled (record { code = code.entry.now; image = image.now }) resumed f) work.old work.new r result }
{
    let p = part_of(code, work, r, resumed, f);
    let pc = p.pc;
    if resumes_other(resumed, instruction(code, pc)) {
        return stuck(r);
    }
    let mut q = same(r);
    q.frames = p.frames;
    q.env = p.env;
    q.pc = pc;
    labels_from(code, image, work, q, p.done)
}
