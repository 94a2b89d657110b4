// A mark makes the bindings of all matching advice at its own step, each with the target of its advice's body.
ghost use Rattle.std.specs.Prelude.{◌+◌, ◌≤◌, ◌<◌, length};
ghost use Rattle.calculus.specs.Limits.{label_limit, advice_limit};
ghost use Rattle.base_bytes.specs.Memory.{memory_length};
ghost use Rattle.vm_pools.specs.Pools.{whole, pool_bound};
ghost use Rattle.vm_machine.specs.Memory.{binding_places};
ghost use Rattle.vm_machine.specs.Reduce.{bind_one, bind_matching};
ghost use Rattle.vm_memory.specs.View.{memory_of, Holds};
ghost use Rattle.vm_marks.specs.NextAdvice.{advised};
ghost use Rattle.vm_marks.specs.Binds.{bound_in, Binds};

use vm_memory::bindings::bind;
use vm_memory::labels::has_bit;
use vm_memory::pieces::{
    advice_dom, advice_env, advice_target, installed_at, piece_first, piece_second,
};
use vm_memory::words::BINDING_PLACES;
use vm_pools::Pool;
use vm_registers::pools::is_mainline;

// The binding at place n, with the value v, of the advice with word a. A binding past the table is not made.
fn bind_advice(work: &mut [u8], n: usize, v: u64, a: u64)
    requires { memory_length ≤ length work.old }
    ensures { Holds (advised n v a (memory_of work.old)) work.old work.new }
{
    if n < BINDING_PLACES {
        bind(work, n, v, advice_target(a), advice_env(a));
    }
}

// The binding of installed advice i, where label l triggers it; b are there. It is charged to the half of the advice's domain
// (document 02, card 9).
fn bind_one(work: &mut [u8], l: u64, v: u64, i: usize, b: Pool) -> Pool
    requires { (memory_length ≤ length work.old) × (l < label_limit) × (i < advice_limit) × (whole b < pool_bound) }
    ensures { Binds (bind_one l v i (bound_in work.old b)) work.old work.new result × (whole b ≤ whole result) × (whole result ≤ whole b + 1) }
{
    let p = installed_at(work, i);
    if has_bit(piece_second(work, p), l) {
        let a = piece_first(work, p);
        bind_advice(work, b.whole(), v, a);
        return b.charge(is_mainline(advice_dom(a)), 1);
    }
    b
}

// The bindings of the first n installed advice, the newest first (document 02, card 8).
pub fn bind_matching(work: &mut [u8], n: usize, l: u64, v: u64, b: Pool) -> Pool
    requires { (memory_length ≤ length work.old) × (l < label_limit) × (n ≤ advice_limit) × (whole b ≤ binding_places) }
    ensures { Binds (bind_matching n l v (bound_in work.old b)) work.old work.new result × (whole b ≤ whole result) × (whole result < pool_bound) }
{
    let mut q = b;
    for i in (0..n).rev() {
        q = bind_one(work, l, v, i, q);
    }
    q
}
