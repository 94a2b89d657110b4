// Bindings, from 0 on: link + 2^16 * target, and the value above 2^28. The target is that of the body of the advice whose
// variable it is, 0 for any other. A link is the number of the binding outside, or NO_BINDING where there is none;
// it has two bytes to itself (card 4).
ghost use Rattle.std.specs.Prelude.{◌≡◌, ◌<◌, ◌≤◌, length};
ghost use Rattle.base_bytes.specs.Memory.{memory_length};
ghost use Rattle.vm_machine.specs.Memory.{put_binding, binding_at, bound_target, bound_link, binding_places};
ghost use Rattle.vm_machine.specs.Memory as machine;
ghost use Rattle.vm_code.specs.Words.{target_count};
ghost use Rattle.vm_memory.specs.View.{memory_of, Holds};

use crate::words::{BINDING_PLACES, above, put_word, word};
use vm_words::code::{TARGETS, in_field};

// The link of the outermost binding: no binding is outside of the last.
pub const NO_BINDING: usize = BINDING_PLACES - 1;

// Where a binding's target begins, above its link of two bytes.
const TARGET: u64 = 65536;

fn binding(v: u64, target: usize, link: usize) -> u64
    requires { (target < target_count) × (link < 65536) }
    ensures { result ≡ machine.binding v target link }
{
    above(v, link as u64 + TARGET * (target as u64))
}

// Binding i becomes one of the value v.
pub fn bind(work: &mut [u8], i: usize, v: u64, target: usize, link: usize)
    requires { (memory_length ≤ length work.old) × (i < binding_places) × (target < target_count) × (link < 65536) }
    ensures { Holds (put_binding i (machine.binding v target link) (memory_of work.old)) work.old work.new }
{
    put_word(work, i, binding(v, target, link));
}

pub fn bound_target(w: u64) -> usize
    ensures { result ≡ bound_target w }
{
    in_field::<TARGET, TARGETS>(w) as usize
}

fn bound_link(w: u64) -> usize
    ensures { result ≡ bound_link w }
{
    (w % TARGET) as usize
}

pub fn binding_at(work: &[u8], i: usize) -> u64
    requires { (memory_length ≤ length work.now) × (i < binding_places) }
    ensures { result ≡ binding_at (memory_of work.now) i }
{
    word(work, i)
}

// The value of variable k in the environment whose innermost binding is env.
pub fn lookup(work: &[u8], env: usize, k: usize) -> u64
    requires { (memory_length ≤ length work.now) × (env < binding_places) }
    ensures { result ≡ machine.lookup (memory_of work.now) env k }
{
    let mut w = binding_at(work, env);
    for _ in 0..k {
        let l = bound_link(w);
        if NO_BINDING <= l {
            return 0;
        }
        w = binding_at(work, l);
    }
    w
}
