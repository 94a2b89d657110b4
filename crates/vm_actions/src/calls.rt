// The call of a method (card 3): "A call is one step and one binding".
ghost use Rattle.std.specs.Prelude.{ℕ, ◌≤◌, ◌<◌, length};
ghost use Rattle.base_bytes.specs.Memory.{memory_length};
ghost use Rattle.vm_code.specs.Words.{depth_of, term_count};
ghost use Rattle.vm_machine.specs.States.{judged};
ghost use Rattle.vm_machine.specs.Fits.{Fits};
ghost use Rattle.vm_machine.specs.Turn.{reduce_call};
ghost use Rattle.vm_registers.specs.Phases.{Phase};

use calculus::outcomes::FRAMES;
use read_records::numbers::TermNo;
use vm_labels::entry::method_at;
use vm_machine::Regs;
use vm_reductions::calls::call_body;
use vm_registers::regs::halt;
use vm_words::code::{depth_of, field_b};
use vm_words::terms::word_of;
use vm_words::value::object_term;

// The method in field b of the object x.
fn reduce_call(code: &[u64], image: &[u8], work: &mut [u8], r: Regs, w: u64, x: u64) -> Regs
    requires { (term_count ≤ length code.now) × (memory_length ≤ length work.old) × (depth_of w ≤ r.frames) × ((size : ℕ) × Fits size r) }
    ensures { Phase (reduce_call (record { code = code.now; image = image.now }) w x) work.old work.new r result }
{
    let t: TermNo = object_term(x);
    let u = word_of(code, t);
    let g = method_at(code, image, u, field_b(w));
    call_body(code, work, r, w, x, g)
}

pub fn call(code: &[u64], image: &[u8], work: &mut [u8], r: Regs, w: u64, x: u64) -> Regs
    requires { (term_count ≤ length code.now) × (memory_length ≤ length work.old) × ((size : ℕ) × Fits size r) }
    ensures { Phase (λ S. judged w S (reduce_call (record { code = code.now; image = image.now }) w x S)) work.old work.new r result }
{
    if r.frames <= depth_of(w) {
        return halt(r, FRAMES);
    }
    reduce_call(code, image, work, r, w, x)
}
