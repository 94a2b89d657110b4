// The children of a pointcut, and the labels of those that are atoms.
ghost use Rattle.std.specs.Prelude.{◌≡◌, List, ℕ, ◌-◌, ◌%◌, ◌≤◌, ◌<◌, length};
ghost use Rattle.base_bytes.specs.Memory.{memory_length};
ghost use Rattle.read_records.specs.Heads.{field_in};
ghost use Rattle.vm_code.specs.Words.{term_count, count_of};
ghost use Rattle.vm_machine.specs.Turn.{take_labels};
ghost use Rattle.vm_machine.specs.Memory.{binding_places};
ghost use Rattle.vm_memory.specs.View.{memory_of};
ghost use Rattle.vm_labels.specs.PointcutChildren.{child_fields};

use crate::Done;
use read_records::fields::field_or_zero;
use read_records::numbers::TermNo;
use read_records::reader::part;
use vm_memory::labels::{LABELS, with_digit};
use vm_registers::ends::atom_value;
use vm_words::classes::INSTRUCTION;
use vm_words::code::{class_of, count_of, offset_of};
use vm_words::terms::{term_with, word_of};
use vm_words::value::body;

// The fields of a pointcut with word w that hold its children.
pub fn child_fields(image: &[u8], w: u64) -> &[u8]
    ensures { result.now ≡ child_fields image.now w }
{
    part(image, offset_of(w), 2 * count_of(w))
}

// The term that field i names, of fields of which the run's words tell.
pub fn term_at(fields: &[u8], i: usize) -> TermNo
    requires { i < 65536 }
    ensures { result.0 ≡ field_in fields.now i % term_count }
{
    term_with(field_or_zero(fields, i) as usize)
}

// From the children on that are done: atoms are taken in place; it stops at what is none. The fields are those of the children.
pub fn take_labels(code: &[u64], fields: &[u8], work: &[u8], env: usize, w: u64, from: Done) -> Done
    requires { (term_count ≤ length code.now) × (memory_length ≤ length work.now) × (env < binding_places) }
    ensures { (image : List ℕ) → fields.now ≡ child_fields image w → record { count = result.count; digits = result.digits } ≡ take_labels (record { code = code.entry.now; image = image }) (memory_of work.now) env w (count_of w - from.count) from.count from.digits }
{
    let mut done = from;
    for i in from.count..count_of(w) {
        let u = word_of(code, term_at(fields, i));
        if INSTRUCTION <= class_of(u) {
            return done;
        }
        let v = atom_value(work, env, u);
        done = Done {
            count: i + 1,
            digits: with_digit(done.digits, body(v) % LABELS),
        };
    }
    done
}
