// The reduction of a mark.
ghost use Rattle.std.specs.Prelude.{◌≡◌, ℕ, ◌%◌, ◌≤◌, ◌<◌, length};
ghost use Rattle.base_bytes.specs.Memory.{memory_length};
ghost use Rattle.calculus.specs.Report.{outcome_number};
ghost use Rattle.calculus.specs.Limits.{label_limit};
ghost use Rattle.vm_code.specs.Values.{body_of, unit_value};
ghost use Rattle.vm_pools.specs.Pools.{within_quotas, mark_out};
ghost use Rattle.vm_machine.specs.States.{if_fuel};
ghost use Rattle.vm_machine.specs.Fits.{Fits};
ghost use Rattle.vm_machine.specs.Reduce.{reduce_mark};
ghost use Rattle.vm_machine.specs.Reduce as reduce;
ghost use Rattle.vm_machine.specs.Registers.{frame_slots};
ghost use Rattle.vm_registers.specs.Phases.{Phase};

use crate::advice::start_advice;
use crate::bind::bind_matching;
use calculus::{BINDING_LIMIT, outcomes};
use vm_machine::Regs;
use vm_memory::labels::{LABELS, has_bit};
use vm_pools::Pool;
use vm_registers::ends::given;
use vm_registers::regs::{FUEL_BIAS, halt, same};
use vm_words::value::body;

fn label_of(v: u64) -> u64
    ensures { (result ≡ body_of v % label_limit) × (result < label_limit) }
{
    body(v) % LABELS
}

// The bindings of both halves stay within their limits.
fn within_quotas(b: Pool) -> bool
    ensures { result ≡ within_quotas b }
{
    b.mainline <= BINDING_LIMIT && b.others <= BINDING_LIMIT
}

// The outcome where they do not: "a mark that lacks both halves reports domain 0's".
fn mark_out(b: Pool) -> u32
    ensures { result ≡ outcome_number (mark_out b) }
{
    if b.mainline <= BINDING_LIMIT {
        outcomes::OTHER_BINDINGS
    } else {
        outcomes::BINDINGS
    }
}

// No advice that is installed names the label.
fn mark_without_advice(work: &mut [u8], r: Regs, w: u64) -> Regs
    requires { (memory_length ≤ length work.old) × (r.frames ≤ frame_slots) }
    ensures { Phase (λ S. if_fuel S (reduce.given w unit_value S)) work.old work.new r result }
{
    if r.fuel <= FUEL_BIAS {
        return halt(r, outcomes::SPENT);
    }
    given(work, r, w, 0)
}

// The label x is marked, with the value y. The bindings are made to see whether there is room for all; it is looked at before
// the budget (card 5).
pub fn reduce_mark(work: &mut [u8], r: Regs, w: u64, x: u64, y: u64) -> Regs
    requires { (memory_length ≤ length work.old) × ((size : ℕ) × Fits size r) }
    ensures { Phase (reduce_mark w x y) work.old work.new r result }
{
    let l = label_of(x);
    if !has_bit(r.named, l) {
        return mark_without_advice(work, r, w);
    }
    let mut p = r.pools;
    let b = p.bindings;
    let c = bind_matching(work, r.installed, l, y, b);
    if !within_quotas(c) {
        return halt(r, mark_out(c));
    }
    if r.fuel <= FUEL_BIAS {
        return halt(r, outcomes::SPENT);
    }
    let n = b.whole();
    let m = c.whole();
    if m == n {
        return given(work, r, w, 0);
    }
    p.bindings = c;
    let mut s = same(r);
    s.fuel = r.fuel - 1;
    s.pools = p;
    start_advice(work, s, w, n, m)
}
