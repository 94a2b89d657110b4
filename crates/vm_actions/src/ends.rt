// A body's value comes back to a call or split.
ghost use Rattle.std.specs.Prelude.{List, ℕ, ◌≤◌, length};
ghost use Rattle.base_bytes.specs.Memory.{memory_length};
ghost use Rattle.vm_machine.specs.Turn as machine;
ghost use Rattle.vm_machine.specs.Registers.{frame_slots};
ghost use Rattle.vm_registers.specs.Phases.{Phase};
ghost use Rattle.vm_code.specs.Words.{term_count};

use vm_machine::Regs;
use vm_memory::slots::{slot_env, slot_pc};
use vm_registers::ends::completed;
use vm_registers::regs::same;
use vm_words::code::depth_of;
use vm_words::terms::instruction;

// A call or split has its value: f is the word of its slot.
pub fn returned(code: &[u64], work: &mut [u8], r: Regs, f: u64) -> Regs
    requires { (term_count ≤ length code.now) × (memory_length ≤ length work.old) × (r.frames ≤ frame_slots) }
    ensures { (image : List ℕ) → Phase (machine.returned (record { code = code.now; image = image }) f) work.old work.new r result }
{
    let pc = slot_pc(f);
    let w = instruction(code, pc);
    let mut q = same(r);
    q.env = slot_env(f);
    q.frames = r.frames + depth_of(w);
    completed(work, q, w, r.acc)
}
