// A match looks at its entries one by one, as their pointcuts become known.
ghost use Rattle.std.specs.Prelude.{◌≡◌, ◌&&◌, List, ℕ, ◌+◌, ◌-◌, ◌≤◌, ◌<◌, length};
ghost use Rattle.base_bytes.specs.Memory.{memory_length};
ghost use Rattle.vm_code.specs.Words.{term_count, count_of, count_size};
ghost use Rattle.vm_machine.specs.Stacks.{unlooked, past_any, past_cut, look_on, rest_after, looked_byte, looked_with};
ghost use Rattle.vm_machine.specs.Memory.{binding_places};
ghost use Rattle.vm_machine.specs.Memory as machine;
ghost use Rattle.vm_memory.specs.View.{memory_of};
ghost use Rattle.vm_matches.specs.Matching.{match_fields, looked_of, top_fits, past_entry, LookedAgain};

use crate::Progress;
use crate::entries::{cut_term, entry_at, stops_at};
use vm_memory::kept::{entry_label, is_kept, rest_of, top_entry};
use vm_memory::labels::has_bit;
use vm_memory::pieces::{piece_of, piece_second};
use vm_memory::slots::held_stack;
use vm_registers::ends::atom_at;
use vm_words::code::{COUNTS, count_of};

// The byte beside a match's slot: the entries looked at, so much more where they all fit; or that the stack is still to come.
const ALL_FIT: u64 = COUNTS;

pub const STACK_TO_COME: u64 = 2 * COUNTS;

// Nothing of the stack v was looked at.
pub fn unlooked(v: u64) -> Progress
    ensures { (looked_of result ≡ unlooked v) × (result.stack ≡ v) × (result.next ≤ count_size) }
{
    Progress {
        stack: v,
        next: 0,
        rest: v,
        fits: true,
    }
}

// Past an entry: whether the rest of the stack fits it too.
fn past(work: &[u8], k: Progress, fits: bool) -> Progress
    requires { (memory_length ≤ length work.now) × (k.next < count_size) }
    ensures { result ≡ record { stack = k.stack; next = k.next + 1; rest = machine.rest_of (memory_of work.now) k.rest; fits = k.fits && fits } }
{
    Progress {
        next: k.next + 1,
        rest: rest_of(work, k.rest),
        fits: k.fits && fits,
        ..k
    }
}

// Past an entry for anything.
fn past_any(work: &[u8], k: Progress) -> Progress
    requires { (memory_length ≤ length work.now) × (k.next < count_size) }
    ensures { (looked_of result ≡ past_any (memory_of work.now) (looked_of k)) × (result.stack ≡ k.stack) × (result.next ≡ k.next + 1) }
{
    past(work, k, is_kept(k.rest))
}

// The stack has an entry, whose label the pointcut v names.
fn top_fits(work: &[u8], v: u64, stack: u64) -> bool
    requires { memory_length ≤ length work.now }
    ensures { result ≡ top_fits (memory_of work.now) v stack }
{
    let s = piece_second(work, piece_of(v));
    let l = entry_label(top_entry(work, stack));
    is_kept(stack) && has_bit(s, l)
}

// Past one that is the pointcut v.
fn past_cut(work: &[u8], v: u64, k: Progress) -> Progress
    requires { (memory_length ≤ length work.now) × (k.next < count_size) }
    ensures { (looked_of result ≡ past_cut (memory_of work.now) v (looked_of k)) × (result.stack ≡ k.stack) × (result.next ≡ k.next + 1) }
{
    past(work, k, top_fits(work, v, k.rest))
}

// Past the next entry, which is for anything or an atom.
fn past_entry(code: &[u64], fields: &[u8], work: &[u8], env: usize, k: Progress) -> Progress
    requires { (term_count ≤ length code.now) × (memory_length ≤ length work.now) × (env < binding_places) × (k.next < count_size) }
    ensures { ((image : List ℕ) (w : ℕ) → k.next < count_of w → fields.now ≡ match_fields image w → looked_of result ≡ past_entry (record { code = code.now; image = image }) (memory_of work.now) env w (looked_of k)) × (result.stack ≡ k.stack) × (result.next ≡ k.next + 1) }
{
    let e = entry_at(fields, k.next);
    if e == 0 {
        return past_any(work, k);
    }
    let v = atom_at(code, work, env, cut_term(e));
    past_cut(work, v, k)
}

// Past all entries, unless one is a pointcut that is no atom: it stops there.
pub fn look_on(
    code: &[u64],
    fields: &[u8],
    work: &[u8],
    env: usize,
    w: u64,
    from: Progress,
) -> Progress
    requires { (term_count ≤ length code.now) × (memory_length ≤ length work.now) × (env < binding_places) }
    ensures { ((image : List ℕ) → fields.now ≡ match_fields image w → looked_of result ≡ look_on (record { code = code.now; image = image }) (memory_of work.now) env w (count_of w - from.next) (looked_of from)) × (result.stack ≡ from.stack) }
{
    let n = count_of(w);
    let mut k = from;
    while k.next < n {
        if stops_at(code, fields, k.next) {
            return k;
        }
        k = past_entry(code, fields, work, env, k);
    }
    k
}

// What is behind n entries of the stack v.
fn rest_after(work: &[u8], n: usize, v: u64) -> u64
    requires { memory_length ≤ length work.now }
    ensures { result ≡ rest_after (memory_of work.now) n v }
{
    let mut rest = v;
    for _ in 0..n {
        rest = rest_of(work, rest);
    }
    rest
}

// The byte beside, of a match that stops.
pub fn looked_byte(k: Progress) -> u64
    requires { k.next < count_size }
    ensures { (result ≡ looked_byte (looked_of k)) × (result < 256) }
{
    let n = k.next as u64;
    if k.fits { n + ALL_FIT } else { n }
}

// And back: v is the match's stack.
fn looked_with(work: &[u8], v: u64, byte: u64) -> Progress
    requires { memory_length ≤ length work.now }
    ensures { (looked_of result ≡ looked_with (memory_of work.now) v byte) × (result.stack ≡ v) × (result.next < count_size) }
{
    let n = (byte % ALL_FIT) as usize;
    Progress {
        stack: v,
        next: n,
        rest: rest_after(work, n, v),
        fits: ALL_FIT <= byte,
    }
}

// The progress of a match whose slot has the word f and the byte beside, once the operand that it waits for has the value v.
pub fn looked_again(work: &[u8], v: u64, f: u64, byte: u64) -> Progress
    requires { memory_length ≤ length work.now }
    ensures { LookedAgain (memory_of work.now) v f byte result × (result.next ≤ count_size) }
{
    if STACK_TO_COME <= byte {
        return unlooked(v);
    }
    let k = looked_with(work, held_stack(f), byte);
    past_cut(work, v, k)
}
