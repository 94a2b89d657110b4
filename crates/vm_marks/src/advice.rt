// The advice of a mark, whose variables are bindings one after another: their bodies run in that order.
ghost use Rattle.std.specs.Prelude.{◌≡◌, List, ℕ, ◌+◌, ◌≤◌, ◌<◌, length};
ghost use Rattle.base_bytes.specs.Memory.{memory_length};
ghost use Rattle.vm_code.specs.Words.{depth_of, term_count, return_pc};
ghost use Rattle.vm_machine.specs.Registers.{frame_slots};
ghost use Rattle.vm_machine.specs.Memory.{next_binding, end_binding, binding_places};
ghost use Rattle.vm_machine.specs.Reduce.{body_at, start_advice, next_advice};
ghost use Rattle.vm_memory.specs.View.{memory_of};
ghost use Rattle.vm_registers.specs.Phases.{state_of, Phase};
ghost use Rattle.vm_marks.specs.NextAdvice.{next_body, mark_left};

use calculus::outcomes;
use vm_machine::Regs;
use vm_memory::bindings::{binding_at, bound_target};
use vm_memory::slots::{end_binding, next_binding, put_advice, slot_env, slot_pc};
use vm_memory::words::BINDING_PLACES;
use vm_registers::ends::completed;
use vm_registers::regs::{FUEL_BIAS, halt, halt_with, same};
use vm_words::code::{RETURN_PC, depth_of};
use vm_words::terms::{TERMS, instruction};

// Where the body of the advice whose variable binding b is begins: that of an atom, which is unit, is done.
fn body_at(work: &[u8], b: usize) -> usize
    requires { (memory_length ≤ length work.now) × (b < binding_places) }
    ensures { result ≡ body_at (memory_of work.now) b }
{
    let g = bound_target(binding_at(work, b));
    if TERMS <= g { g % TERMS } else { RETURN_PC }
}

// The advice whose variables are the bindings from n to m run, each under a sequence and a lower.
pub fn start_advice(work: &mut [u8], r: Regs, w: u64, n: usize, m: usize) -> Regs
    requires { (memory_length ≤ length work.old) × (r.frames ≤ frame_slots) × (r.pc ≤ return_pc) × (r.env < binding_places) × (n < binding_places) × (m ≤ binding_places) }
    ensures { Phase (start_advice w n m) work.old work.new r result }
{
    let d = depth_of(w);
    if r.frames <= d + 1 {
        return halt(r, outcomes::FRAMES);
    }
    let t = body_at(work, n);
    put_advice(work, r.frames, d + 2, r.pc, r.env, n + 1, m);
    let mut q = same(r);
    q.frames = r.frames - (d + 2);
    q.env = n;
    q.acc = 0;
    q.pc = t;
    q
}

// The body of the advice that is next of the mark whose slot has the word f.
fn next_body(work: &mut [u8], r: Regs, f: u64) -> Regs
    requires { (memory_length ≤ length work.old) × (r.frames ≤ frame_slots) × (2 ≤ r.fuel) × (next_binding f < end_binding f) }
    ensures { Phase (next_body f) work.old work.new r result }
{
    let n = next_binding(f);
    let b = n % BINDING_PLACES;
    let t = body_at(work, b);
    put_advice(
        work,
        r.frames,
        0,
        slot_pc(f),
        slot_env(f),
        n + 1,
        end_binding(f),
    );
    let mut q = same(r);
    q.fuel = r.fuel - 2;
    q.env = b;
    q.acc = 0;
    q.pc = t;
    q
}

// All advice is done of the mark with word w, whose slot has the word f.
fn mark_left(work: &mut [u8], r: Regs, w: u64, f: u64) -> Regs
    requires { (memory_length ≤ length work.old) × (r.frames + (depth_of w + 2) ≤ frame_slots) × (2 ≤ r.fuel) }
    ensures { Phase (mark_left w f) work.old work.new r result }
{
    let mut s = same(r);
    s.fuel = r.fuel - 2;
    s.frames = r.frames + (depth_of(w) + 2);
    s.env = slot_env(f);
    completed(work, s, w, 0)
}

// The body of an advice is done: its lower and its sequence are left, two steps; then the next advice of the mark, if one
// is left. f is the slot's word.
pub fn next_advice(code: &[u64], work: &mut [u8], r: Regs, f: u64) -> Regs
    requires { (term_count ≤ length code.now) × (memory_length ≤ length work.old) × (r.frames ≤ frame_slots) × ((image log : List ℕ) → (next_advice (record { code = code.now; image = image }) f (state_of work.old log r)).regs.frames ≤ frame_slots) }
    ensures { (image : List ℕ) → Phase (next_advice (record { code = code.entry.now; image = image }) f) work.old work.new r result }
{
    if r.fuel < FUEL_BIAS + 2 {
        return halt_with(r, outcomes::SPENT, FUEL_BIAS);
    }
    if next_binding(f) < end_binding(f) {
        return next_body(work, r, f);
    }
    mark_left(work, r, instruction(code, slot_pc(f)), f)
}
