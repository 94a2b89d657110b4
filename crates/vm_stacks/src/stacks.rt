// The stack is taken: "Taking a stack is one step and one piece an entry."
ghost use Rattle.std.specs.Prelude.{ℕ, ◌+◌, ◌≤◌, ◌<◌, length};
ghost use Rattle.base_bytes.specs.Memory.{memory_length};
ghost use Rattle.vm_code.specs.Values.{bottom_value};
ghost use Rattle.vm_machine.specs.States.{judged};
ghost use Rattle.vm_machine.specs.Stacks.{stack_pieces, reduce_stack};
ghost use Rattle.vm_machine.specs.Fits.{Fits};
ghost use Rattle.vm_machine.specs.Memory.{piece_places};
ghost use Rattle.vm_registers.specs.Phases.{Phase};
ghost use Rattle.vm_stacks.specs.StacksAndKeeps.{stacked_in, Stacks};

use calculus::{PIECE_LIMIT, outcomes};
use vm_machine::Regs;
use vm_memory::kept::kept_at;
use vm_memory::pieces::put_piece;
use vm_registers::ends::given;
use vm_registers::pools::{has_capacity, pieces_out, quota_of};
use vm_registers::regs::{FUEL_BIAS, halt};
use vm_words::code::depth_of;
use vm_words::value::{bottom, kept};

// The pieces of n values that are kept, the outermost first; p are there. The stack's value is that of the innermost.
fn stack_pieces(work: &mut [u8], n: usize, p: usize) -> u64
    requires { (memory_length ≤ length work.old) × (p + n ≤ piece_places) }
    ensures { Stacks (stack_pieces n 0 p (stacked_in work.old bottom_value)) work.old work.new result }
{
    let mut v = bottom();
    for i in 0..n {
        let w = kept_at(work, i);
        put_piece(work, p + i, w, v);
        v = kept(p + i);
    }
    v
}

// All pieces at once, or none: their room is looked at before the budget (card 5).
fn reduce_stack(work: &mut [u8], r: Regs, w: u64) -> Regs
    requires { (memory_length ≤ length work.old) × ((size : ℕ) × Fits size r) }
    ensures { Phase (reduce_stack w) work.old work.new r result }
{
    let n = r.kept;
    let h = quota_of(w);
    let p = r.pools;
    let x = p.pieces;
    if !has_capacity(x, h, n, PIECE_LIMIT) {
        return halt(r, pieces_out(h));
    }
    if r.fuel <= FUEL_BIAS {
        return halt(r, outcomes::SPENT);
    }
    let v = stack_pieces(work, n, x.whole());
    let mut q = given(work, r, w, v);
    q.pools = p.charge_pieces(h, n);
    q
}

pub fn stack(work: &mut [u8], r: Regs, w: u64) -> Regs
    requires { (memory_length ≤ length work.old) × ((size : ℕ) × Fits size r) }
    ensures { Phase (λ S. judged w S (reduce_stack w S)) work.old work.new r result }
{
    if r.frames <= depth_of(w) {
        return halt(r, outcomes::FRAMES);
    }
    reduce_stack(work, r, w)
}
