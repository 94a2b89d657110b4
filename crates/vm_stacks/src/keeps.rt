// A keep begins and is left: its frame stays while its body runs, and so does its value among those that are kept.
ghost use Rattle.std.specs.Prelude.{◌≡◌, List, ℕ, ◌+◌, ◌-◌, ◌≤◌, ◌<◌, length};
ghost use Rattle.base_bytes.specs.Memory.{memory_length};
ghost use Rattle.vm_code.specs.Words.{depth_of, term_count};
ghost use Rattle.vm_machine.specs.Registers.{set_pc, set_frames, set_kept, frame_slots};
ghost use Rattle.vm_machine.specs.States.{judged, if_fuel};
ghost use Rattle.vm_machine.specs.Fetch.{code_at, atom_value};
ghost use Rattle.vm_machine.specs.Reduce as reduce;
ghost use Rattle.vm_machine.specs.Stacks.{start_keep, leave_keep};
ghost use Rattle.vm_machine.specs.Fits.{Fits};
ghost use Rattle.vm_memory.specs.View.{memory_of, Holds};
ghost use Rattle.vm_registers.specs.Phases.{Phase};
ghost use Rattle.vm_stacks.specs.StacksAndKeeps.{keep_started};

use calculus::outcomes;
use read_records::numbers::TermNo;
use vm_machine::Regs;
use vm_memory::kept::put_kept;
use vm_memory::labels::LABELS;
use vm_memory::slots::{put_keep, slot_env, slot_pc};
use vm_registers::ends::{atom_at, given};
use vm_registers::regs::{FUEL_BIAS, halt, same};
use vm_words::code::{depth_of, field_c};
use vm_words::terms::{TERMS, instruction, term_with};
use vm_words::value::body;

// The frame of the keep with word w, and the value y under the label x.
fn keep_value(work: &mut [u8], r: Regs, w: u64, x: u64, y: u64)
    requires { (memory_length ≤ length work.old) × (depth_of w < r.frames) × ((size : ℕ) × Fits size r) }
    ensures { Holds (keep_started w x y r (memory_of work.old)) work.old work.new }
{
    put_keep(work, r.frames, depth_of(w) + 1, r.pc, r.env);
    put_kept(work, r.kept, y, body(x) % LABELS);
}

// The body of the keep with word w is the atom at g: the keep is finished with its step.
fn finish_keep(code: &[u64], work: &mut [u8], r: Regs, w: u64, g: usize) -> Regs
    requires { (term_count ≤ length code.now) × (memory_length ≤ length work.old) × (g < term_count) × ((size : ℕ) × Fits size r) }
    ensures { (image : List ℕ) → Phase (λ S. if_fuel S (reduce.given w (atom_value (record { code = code.now; image = image }) S.memory S.regs.env (code_at (record { code = code.now; image = image }) g)) S)) work.old work.new r result }
{
    if r.fuel <= FUEL_BIAS {
        return halt(r, outcomes::SPENT);
    }
    let t: TermNo = term_with(g);
    given(work, r, w, atom_at(code, work, r.env, t))
}

// The body of the keep with word w begins with the instruction t.
fn begin_body(work: &mut [u8], r: Regs, w: u64, x: u64, y: u64, t: usize) -> Regs
    requires { (memory_length ≤ length work.old) × (depth_of w < r.frames) × ((size : ℕ) × Fits size r) }
    ensures { (result ≡ set_pc t (set_kept (r.kept + 1) (set_frames (r.frames - (depth_of w + 1)) r))) × Holds (keep_started w x y r (memory_of work.old)) work.old work.new }
{
    keep_value(work, r, w, x, y);
    let mut q = same(r);
    q.frames = r.frames - (depth_of(w) + 1);
    q.kept = r.kept + 1;
    q.pc = t;
    q
}

fn start_keep(code: &[u64], work: &mut [u8], r: Regs, w: u64, x: u64, y: u64) -> Regs
    requires { (term_count ≤ length code.now) × (memory_length ≤ length work.old) × (depth_of w < r.frames) × ((size : ℕ) × Fits size r) }
    ensures { (image : List ℕ) → Phase (start_keep (record { code = code.now; image = image }) w x y) work.old work.new r result }
{
    let g = field_c(w);
    if g < TERMS {
        return finish_keep(code, work, r, w, g);
    }
    begin_body(work, r, w, x, y, g % TERMS)
}

// Kept: with `make_match` (vm_matches) this shares the test of the frames alone; if a function of both took what follows as a
// closure, each would be as long as it is.
pub fn keep(code: &[u64], work: &mut [u8], r: Regs, w: u64, x: u64, y: u64) -> Regs
    requires { (term_count ≤ length code.now) × (memory_length ≤ length work.old) × ((size : ℕ) × Fits size r) }
    ensures { (image : List ℕ) → Phase (λ S. judged w S (start_keep (record { code = code.now; image = image }) w x y S)) work.old work.new r result }
{
    if r.frames <= depth_of(w) {
        return halt(r, outcomes::FRAMES);
    }
    start_keep(code, work, r, w, x, y)
}

// The keep whose slot has the word f is finished: a step at its own place.
pub fn leave_keep(code: &[u64], work: &mut [u8], r: Regs, f: u64) -> Regs
    requires { (term_count ≤ length code.now) × (memory_length ≤ length work.old) × (r.frames ≤ frame_slots) }
    ensures { (image : List ℕ) → Phase (leave_keep (record { code = code.now; image = image }) f) work.old work.new r result }
{
    if r.fuel <= FUEL_BIAS {
        return halt(r, outcomes::SPENT);
    }
    let pc = slot_pc(f);
    let w = instruction(code, pc);
    let mut q = same(r);
    q.kept = r.kept.saturating_sub(1);
    q.frames = r.frames + (depth_of(w) + 1);
    q.env = slot_env(f);
    given(work, q, w, r.acc)
}
