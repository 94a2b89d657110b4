// The reductions that make or change a cell, make a label or an advice, install an advice, or abort.
ghost use Rattle.std.specs.Prelude.{List, ℕ, ◌≤◌, ◌<◌, length};
ghost use Rattle.base_bytes.specs.Memory.{memory_length};
ghost use Rattle.vm_machine.specs.Registers.{fuel_bias};
ghost use Rattle.vm_machine.specs.Fits.{Fits};
ghost use Rattle.vm_machine.specs.Reduce.{reduce_store, reduce_cell, reduce_label, reduce_advice, reduce_install, reduce_abort};
ghost use Rattle.vm_registers.specs.Phases.{Phase};

use calculus::{ADVICE_LIMIT, CELL_LIMIT, LABEL_LIMIT, outcomes};
use read_records::numbers::DomainNo;
use vm_machine::Regs;
use vm_memory::cells::{cell_of, put_cell, store_cell};
use vm_memory::pieces::{advice_word, piece_of, piece_second, put_installed};
use vm_registers::ends::given;
use vm_registers::pieces::new_piece;
use vm_registers::pools::{cells_out, has_capacity, quota_of};
use vm_registers::regs::{halt, halt_with};
use vm_words::code::{advice_domain, field_b};
use vm_words::value;

// The cell x holds the value y.
pub fn reduce_store(work: &mut [u8], r: Regs, w: u64, x: u64, y: u64) -> Regs
    requires { (memory_length ≤ length work.old) × (fuel_bias < r.fuel) × ((size : ℕ) × Fits size r) }
    ensures { Phase (reduce_store w x y) work.old work.new r result }
{
    store_cell(work, cell_of(x), y);
    given(work, r, w, 0)
}

// One more cell, which holds the value x.
pub fn reduce_cell(work: &mut [u8], r: Regs, w: u64, x: u64) -> Regs
    requires { (memory_length ≤ length work.old) × (fuel_bias < r.fuel) × ((size : ℕ) × Fits size r) }
    ensures { Phase (reduce_cell w x) work.old work.new r result }
{
    let h = quota_of(w);
    let p = r.pools;
    let c = p.cells;
    if has_capacity(c, h, 1, CELL_LIMIT) {
        let n = c.whole();
        put_cell(work, n, x, field_b(w) as u64);
        let mut q = given(work, r, w, value::value(value::CELL, n as u64));
        q.pools = p.charge_cells(h, 1);
        return q;
    }
    halt(r, cells_out(h))
}

// One more label.
pub fn reduce_label(work: &mut [u8], r: Regs, w: u64) -> Regs
    requires { (memory_length ≤ length work.old) × (fuel_bias < r.fuel) × ((size : ℕ) × Fits size r) }
    ensures { Phase (reduce_label w) work.old work.new r result }
{
    let n = r.labels;
    if n < LABEL_LIMIT {
        let mut q = given(work, r, w, value::value(value::LABEL, n as u64));
        q.labels = n + 1;
        return q;
    }
    halt(r, outcomes::LABELS)
}

// An advice on the pointcut x.
pub fn reduce_advice(work: &mut [u8], r: Regs, w: u64, x: u64) -> Regs
    requires { (memory_length ≤ length work.old) × (fuel_bias < r.fuel) × ((size : ℕ) × Fits size r) }
    ensures { Phase (reduce_advice w x) work.old work.new r result }
{
    let dom: DomainNo = advice_domain(w);
    let a = advice_word(field_b(w), r.env, dom);
    let b = piece_second(work, piece_of(x));
    new_piece(work, r, w, value::ADVICE, a, b)
}

// The advice x is installed.
pub fn reduce_install(work: &mut [u8], r: Regs, w: u64, x: u64) -> Regs
    requires { (memory_length ≤ length work.old) × (fuel_bias < r.fuel) × ((size : ℕ) × Fits size r) }
    ensures { Phase (reduce_install w x) work.old work.new r result }
{
    let n = r.installed;
    if n < ADVICE_LIMIT {
        let p = piece_of(x);
        let s = piece_second(work, p);
        put_installed(work, n, p);
        let mut q = given(work, r, w, 0);
        q.installed = n + 1;
        q.named = r.named | s;
        return q;
    }
    halt(r, outcomes::ADVICE)
}

// A step is made, and the machine halts.
pub fn reduce_abort(r: Regs) -> Regs
    requires { fuel_bias < r.fuel }
    ensures { (work : List ℕ) → Phase reduce_abort work work r result }
{
    halt_with(r, outcomes::ABORTED, r.fuel - 1)
}
