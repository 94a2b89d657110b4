// "Values bind in the first branch, left to right, rest last."
ghost use Rattle.std.specs.Prelude.{◌≡◌, ◌+◌, ◌≤◌, ◌<◌, length, eqb};
ghost use Rattle.calculus.specs.Combinators.{choose};
ghost use Rattle.base_bytes.specs.Memory.{memory_length};
ghost use Rattle.vm_code.specs.Words.{count_of, count_size};
ghost use Rattle.vm_machine.specs.Fetch.{Program};
ghost use Rattle.vm_machine.specs.Stacks.{binds_rest, variables, bind_inside, bind_entries};
ghost use Rattle.vm_machine.specs.Memory.{binding_places};
ghost use Rattle.vm_matches.specs.Matching.{match_fields, entry_in, chain_in, Chains, entry_bound, rest_bound};

use crate::Chain;
use crate::entries::{binds_rest, entry_at};
use vm_memory::bindings::bind;
use vm_memory::kept::{rest_of, top_entry};
use vm_words::code::count_of;

// The value v is bound inside those of b.
fn bind_inside(work: &mut [u8], v: u64, b: Chain) -> Chain
    requires { (memory_length ≤ length work.old) × (b.count < binding_places) × (b.env < binding_places) }
    ensures { Chains (bind_inside v (chain_in work.old b)) work.old work.new result × (result.env < binding_places) }
{
    let n = b.count;
    bind(work, n, v, 0, b.env);
    Chain {
        count: n + 1,
        env: n,
    }
}

// The value of entry i: v is what is left of the stack. An entry for anything binds nothing.
fn bind_entry(fields: &[u8], work: &mut [u8], i: usize, v: u64, b: Chain) -> Chain
    requires { (memory_length ≤ length work.old) × (i < count_size) × (b.env < binding_places) × (b.count + choose (eqb (entry_in fields.now i) 0) 0 1 ≤ binding_places) }
    ensures { Chains (entry_bound (entry_in fields.now i) v (chain_in work.old b)) work.old work.new result × (result.env < binding_places) }
{
    if entry_at(fields, i) == 0 {
        return b;
    }
    let y = top_entry(work, v);
    bind_inside(work, y, b)
}

// The rest, where the close binds it.
fn bind_rest(fields: &[u8], work: &mut [u8], w: u64, v: u64, b: Chain) -> Chain
    requires { (memory_length ≤ length work.old) × (b.env < binding_places) × ((C : Program) × (fields.now ≡ match_fields C.image w) × (b.count + choose (binds_rest C w) 1 0 ≤ binding_places)) }
    ensures { ((C : Program) → fields.now ≡ match_fields C.image w → Chains (rest_bound C w v (chain_in work.old b)) work.old work.new result) × (result.env < binding_places) }
{
    if binds_rest(fields, w) {
        return bind_inside(work, v, b);
    }
    b
}

// The values of all entries of the stack v, and the rest.
pub fn bind_entries(fields: &[u8], work: &mut [u8], w: u64, v: u64, from: Chain) -> Chain
    requires { (memory_length ≤ length work.old) × (from.env < binding_places) × ((C : Program) × (fields.now ≡ match_fields C.image w) × (from.count + variables C w (count_of w) 0 ≤ binding_places)) }
    ensures { ((C : Program) → fields.now ≡ match_fields C.image w → Chains (bind_entries C w (count_of w) 0 v (chain_in work.old from)) work.old work.new result) × (result.env < binding_places) }
{
    let mut rest = v;
    let mut b = from;
    for i in 0..count_of(w) {
        let behind = rest_of(work, rest);
        b = bind_entry(fields, work, i, rest, b);
        rest = behind;
    }
    bind_rest(fields, work, w, rest, b)
}
