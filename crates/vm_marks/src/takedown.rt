// A takedown (document 02, card 7): the installed advice of its domain goes; what stays moves together, in its order.
ghost use Rattle.std.specs.Prelude.{ℕ, ◌+◌, ◌≤◌, ◌<◌, length};
ghost use Rattle.calculus.specs.Limits.{advice_limit};
ghost use Rattle.base_bytes.specs.Memory.{memory_length};
ghost use Rattle.vm_machine.specs.Registers.{fuel_bias};
ghost use Rattle.vm_machine.specs.Fits.{Fits};
ghost use Rattle.vm_machine.specs.Reduce.{stay_one, stay_others, reduce_takedown};
ghost use Rattle.vm_registers.specs.Phases.{Phase};
ghost use Rattle.vm_marks.specs.Binds.{bound_in, Binds};

use read_records::numbers::DomainNo;
use vm_machine::Regs;
use vm_memory::pieces::{advice_dom, installed_at, piece_first, put_installed};
use vm_registers::ends::given;
use vm_registers::regs::same;
use vm_words::code::takedown_domain;

// Installed advice i stays, at place n, unless it is of the domain d; answers the next place.
fn stay_one(work: &mut [u8], d: DomainNo, i: usize, n: usize) -> usize
    requires { (memory_length ≤ length work.old) × (i < advice_limit) × (n ≤ i) }
    ensures { Binds (stay_one d.0 i (bound_in work.old n)) work.old work.new result × (result ≤ n + 1) }
{
    let p = installed_at(work, i);
    let a = piece_first(work, p);
    if advice_dom(a).0 == d.0 {
        return n;
    }
    put_installed(work, n, p);
    n + 1
}

// Of n installed advices, those stay that are not of the domain d; answers how many stay.
fn stay_others(work: &mut [u8], n: usize, d: DomainNo) -> usize
    requires { (memory_length ≤ length work.old) × (n ≤ advice_limit) }
    ensures { Binds (stay_others n 0 d.0 (bound_in work.old 0)) work.old work.new result }
{
    let mut m: usize = 0;
    for i in 0..n {
        m = stay_one(work, d, i, m);
    }
    m
}

// The advice of its domain is taken down.
pub fn reduce_takedown(work: &mut [u8], r: Regs, w: u64) -> Regs
    requires { (memory_length ≤ length work.old) × (fuel_bias < r.fuel) × ((size : ℕ) × Fits size r) }
    ensures { Phase (reduce_takedown w) work.old work.new r result }
{
    let n = stay_others(work, r.installed, takedown_domain(w));
    let mut s = same(r);
    s.installed = n;
    given(work, s, w, 0)
}
