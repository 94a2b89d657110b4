// A match all of whose operands are worked out: one step, and in the first branch one binding a variable.
ghost use Rattle.std.specs.Prelude.{◌≡◌, List, ℕ, ◌+◌, ◌*◌, ◌%◌, ◌≤◌, ◌<◌, length};
ghost use Rattle.image.specs.Bytes.{le16};
ghost use Rattle.vm_code.specs.Words.{depth_of, term_count, offset_of};
ghost use Rattle.vm_machine.specs.States.{judged};
ghost use Rattle.vm_machine.specs.Turn.{begun_at, reduce_match};
ghost use Rattle.vm_registers.specs.Phases.{Phase};
ghost use Rattle.vm_matches.specs.Matching.{match_fields, looked_of, first_branch, other_branch};
ghost use Rattle.vm_matches.specs.Operands.{Matchable, OfMatch};

use crate::bindings::bind_entries;
use crate::entries::{FIRST_BRANCH, OTHER_BRANCH, matches, variables};
use crate::{Chain, Progress};
use calculus::{BINDING_LIMIT, outcomes};
use vm_labels::children::term_at;
use vm_labels::entry::begun_at;
use vm_machine::Regs;
use vm_registers::ends::called;
use vm_registers::pools::{bindings_out, has_capacity, quota_of};
use vm_registers::regs::{FUEL_BIAS, halt};
use vm_words::code::depth_of;

// Where the branch is begun that field i names.
fn branch_at(code: &[u64], fields: &[u8], i: usize) -> usize
    requires { (term_count ≤ length code.now) × (i < 3) }
    ensures { (image : List ℕ) (w : ℕ) → fields.now ≡ match_fields image w → result ≡ begun_at (record { code = code.now; image = image }) (le16 image (offset_of w + 2 * i) % term_count) }
{
    begun_at(code, term_at(fields, i))
}

// The stack v matches: the room of the bindings is looked at before the budget (card 5).
fn first_branch(code: &[u64], fields: &[u8], work: &mut [u8], r: Regs, w: u64, v: u64) -> Regs
    requires { Matchable code.now work.old r × (depth_of w ≤ r.frames) × OfMatch fields.now w }
    ensures { (image : List ℕ) → fields.now ≡ match_fields image w → Phase (first_branch (record { code = code.now; image = image }) w v) work.old work.new r result }
{
    let h = quota_of(w);
    let p = r.pools;
    let x = p.bindings;
    let m = variables(fields, w);
    if !has_capacity(x, h, m, BINDING_LIMIT) {
        return halt(r, bindings_out(h));
    }
    if r.fuel <= FUEL_BIAS {
        return halt(r, outcomes::SPENT);
    }
    let from = Chain {
        count: x.whole(),
        env: r.env,
    };
    let b = bind_entries(fields, work, w, v, from);
    let g = branch_at(code, fields, FIRST_BRANCH);
    let mut q = called(code, work, r, w, g, b.env);
    q.fuel = r.fuel - 1;
    q.pools = p.charge_bindings(h, m);
    q
}

// The stack does not match: the second branch.
fn other_branch(code: &[u64], fields: &[u8], work: &mut [u8], r: Regs, w: u64) -> Regs
    requires { Matchable code.now work.old r × (depth_of w ≤ r.frames) × OfMatch fields.now w }
    ensures { (image : List ℕ) → fields.now ≡ match_fields image w → Phase (other_branch (record { code = code.now; image = image }) w) work.old work.new r result }
{
    if r.fuel <= FUEL_BIAS {
        return halt(r, outcomes::SPENT);
    }
    let g = branch_at(code, fields, OTHER_BRANCH);
    let mut q = called(code, work, r, w, g, r.env);
    q.fuel = r.fuel - 1;
    q
}

fn reduce_match(code: &[u64], fields: &[u8], work: &mut [u8], r: Regs, w: u64, k: Progress) -> Regs
    requires { Matchable code.now work.old r × (depth_of w ≤ r.frames) × OfMatch fields.now w }
    ensures { (image : List ℕ) → fields.now ≡ match_fields image w → Phase (reduce_match (record { code = code.now; image = image }) w k.stack (looked_of k)) work.old work.new r result }
{
    if matches(fields, w, k) {
        return first_branch(code, fields, work, r, w, k.stack);
    }
    other_branch(code, fields, work, r, w)
}

// Kept: with `keep` (vm_stacks) this shares the test of the frames alone; if a function of both took what follows as a closure,
// each would be as long as it is.
pub fn make_match(
    code: &[u64],
    fields: &[u8],
    work: &mut [u8],
    r: Regs,
    w: u64,
    k: Progress,
) -> Regs
    requires { Matchable code.now work.old r × OfMatch fields.now w }
    ensures { (image : List ℕ) → fields.now ≡ match_fields image w → Phase (λ S. judged w S (reduce_match (record { code = code.now; image = image }) w k.stack (looked_of k) S)) work.old work.new r result }
{
    if r.frames <= depth_of(w) {
        return halt(r, outcomes::FRAMES);
    }
    reduce_match(code, fields, work, r, w, k)
}
