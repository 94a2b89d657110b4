// The reductions that bind and enter a body: calls and splits.
ghost use Rattle.std.specs.Prelude.{◌≡◌, List, ℕ, ◌+◌, ◌%◌, ◌≤◌, ◌<◌, length};
ghost use Rattle.base_bytes.specs.Memory.{memory_length};
ghost use Rattle.vm_code.specs.Values.{body_of};
ghost use Rattle.vm_code.specs.Words.{depth_of, term_count, target_count};
ghost use Rattle.vm_machine.specs.Memory.{binding, put_binding, closure_env, piece_first, piece_second, binding_places, piece_places, no_binding};
ghost use Rattle.vm_machine.specs.Registers.{fuel_bias};
ghost use Rattle.vm_machine.specs.Fits.{Fits};
ghost use Rattle.vm_machine.specs.Reduce.{reduce_apply, reduce_split};
ghost use Rattle.vm_machine.specs.Turn.{call_body};
ghost use Rattle.vm_memory.specs.View.{memory_of, Holds};
ghost use Rattle.vm_registers.specs.Phases.{Phase};

use calculus::{BINDING_LIMIT, outcomes};
use vm_machine::Regs;
use vm_memory::bindings::bind;
use vm_memory::pieces::{piece_first, piece_of, piece_second};
use vm_registers::ends::called;
use vm_registers::pools::{bindings_out, has_capacity, quota_of};
use vm_registers::regs::{FUEL_BIAS, halt, same};
use vm_words::code::{TARGETS, field_b};
use vm_words::value::{ENVIRONMENT, ENVIRONMENTS, body};

// The environment of a function's or an object's value, and the target of the body of a function's.
fn closure_env(f: u64) -> usize
    ensures { result ≡ closure_env f }
{
    (body(f) / ENVIRONMENT % ENVIRONMENTS) as usize
}

fn function_target(f: u64) -> usize
    ensures { result ≡ body_of f % target_count }
{
    (body(f) % TARGETS) as usize
}

// The function x is applied to the value y.
pub fn reduce_apply(code: &[u64], work: &mut [u8], r: Regs, w: u64, x: u64, y: u64) -> Regs
    requires { (term_count ≤ length code.now) × (memory_length ≤ length work.old) × (fuel_bias < r.fuel) × (depth_of w ≤ r.frames) × ((size : ℕ) × Fits size r) }
    ensures { (image : List ℕ) → Phase (reduce_apply (record { code = code.now; image = image }) w x y) work.old work.new r result }
{
    let h = quota_of(w);
    let p = r.pools;
    let b = p.bindings;
    if has_capacity(b, h, 1, BINDING_LIMIT) {
        let n = b.whole();
        bind(work, n, y, 0, closure_env(x));
        let mut s = same(r);
        s.fuel = r.fuel - 1;
        s.pools = p.charge_bindings(h, 1);
        return called(code, work, s, w, function_target(x), n);
    }
    halt(r, bindings_out(h))
}

// The body at the target g is called on the object x, which it binds (card 3). Its room is looked at before the budget (card 5).
pub fn call_body(code: &[u64], work: &mut [u8], r: Regs, w: u64, x: u64, g: usize) -> Regs
    requires { (term_count ≤ length code.now) × (memory_length ≤ length work.old) × (depth_of w ≤ r.frames) × ((size : ℕ) × Fits size r) }
    ensures { (image : List ℕ) → Phase (call_body (record { code = code.now; image = image }) w x g) work.old work.new r result }
{
    let h = quota_of(w);
    let p = r.pools;
    let b = p.bindings;
    if has_capacity(b, h, 1, BINDING_LIMIT) {
        if r.fuel <= FUEL_BIAS {
            return halt(r, outcomes::SPENT);
        }
        let n = b.whole();
        bind(work, n, x, 0, closure_env(x));
        let mut q = called(code, work, r, w, g, n);
        q.fuel = r.fuel - 1;
        q.pools = p.charge_bindings(h, 1);
        return q;
    }
    halt(r, bindings_out(h))
}

// Bindings i and i + 1 of the two parts of pair p, the first outside the second.
fn bind_parts(work: &mut [u8], p: usize, i: usize, env: usize)
    requires { (memory_length ≤ length work.old) × (p < piece_places) × (i < no_binding) × (env < binding_places) }
    ensures { Holds (put_binding (i + 1) (binding (piece_second (memory_of work.old) p) 0 i) (put_binding i (binding (piece_first (memory_of work.old) p) 0 env) (memory_of work.old))) work.old work.new }
{
    let a = piece_first(work, p);
    let b = piece_second(work, p);
    bind(work, i, a, 0, env);
    bind(work, i + 1, b, 0, i);
}

// The parts of the pair x are bound.
pub fn reduce_split(code: &[u64], work: &mut [u8], r: Regs, w: u64, x: u64) -> Regs
    requires { (term_count ≤ length code.now) × (memory_length ≤ length work.old) × (fuel_bias < r.fuel) × (depth_of w ≤ r.frames) × ((size : ℕ) × Fits size r) }
    ensures { (image : List ℕ) → Phase (reduce_split (record { code = code.now; image = image }) w x) work.old work.new r result }
{
    let h = quota_of(w);
    let p = r.pools;
    let b = p.bindings;
    if has_capacity(b, h, 2, BINDING_LIMIT) {
        let n = b.whole();
        bind_parts(work, piece_of(x), n, r.env);
        let mut q = called(code, work, r, w, field_b(w), n + 1);
        q.fuel = r.fuel - 1;
        q.pools = p.charge_bindings(h, 2);
        return q;
    }
    halt(r, bindings_out(h))
}
