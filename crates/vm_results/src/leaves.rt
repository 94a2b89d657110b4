// The leaves of a value in the tables.
ghost use Rattle.std.specs.Prelude.{◌≡◌, [], ◌≤◌, length};
ghost use Rattle.base_bytes.specs.Memory.{memory_length};
ghost use Rattle.vm_machine.specs.Leaves.{leaf_of, one_leaf, leaves_of};
ghost use Rattle.vm_memory.specs.View.{memory_of};
ghost use Rattle.vm_results.specs.Gathered.{with_leaf, with_leaves, gathered};
ghost use Rattle.vm_results.specs.Ended.{plain_leaves_in};

use crate::Gathered;
use calculus::{LEAF_LIMIT, Leaf};
use report::Slot;
use vm_memory::pieces::{piece_first, piece_of, piece_second};
use vm_words::value::{NUMBER, PAIR, TRUTH, UNIT, body, tag};

pub fn no_leaves() -> Gathered
    ensures { result ≡ gathered [] }
{
    let unit = Slot { leaf: Leaf::Unit };
    Gathered {
        count: 0,
        slots: [unit; LEAF_LIMIT],
    }
}

// One leaf more, where there is a slot for it.
fn with_leaf(held: Gathered, leaf: Leaf) -> Gathered
    ensures { result ≡ with_leaf held leaf }
{
    let at = held.count;
    if LEAF_LIMIT <= at {
        return held;
    }
    let mut next = held;
    next.slots[at] = Slot { leaf };
    next.count = at + 1;
    next
}

// The leaf of a word whose tag is at most that of a number.
fn leaf_of(w: u64) -> Leaf
    ensures { result ≡ leaf_of w }
{
    match tag(w) {
        UNIT => Leaf::Unit,
        TRUTH => Leaf::Truth(body(w) != 0),
        _ => Leaf::Number(body(w) as u32),
    }
}

// With the leaf of what is no pair, if it is one: the highest tag of a leaf is a number's.
fn with_word(held: Gathered, w: u64) -> Gathered
    ensures { result ≡ with_leaves held (one_leaf w) }
{
    if NUMBER < tag(w) {
        return held;
    }
    with_leaf(held, leaf_of(w))
}

// With the leaves of a value of pairs at most so deep, left to right.
fn gather(work: &[u8], depth: usize, w: u64, held: Gathered) -> Gathered
    requires { memory_length ≤ length work.now }
    ensures { result ≡ with_leaves held (leaves_of (memory_of work.now) depth w) }
{
    if tag(w) != PAIR {
        return with_word(held, w);
    }
    if depth == 0 {
        return held;
    }
    let p = piece_of(w);
    let a = piece_first(work, p);
    let b = piece_second(work, p);
    let first = gather(work, depth - 1, a, held);
    gather(work, depth - 1, b, first)
}

// The leaves of a value: at most eight. Most values are one leaf, and those need no walk.
pub fn plain_leaves(work: &[u8], w: u64) -> Gathered
    requires { memory_length ≤ length work.now }
    ensures { result ≡ gathered (plain_leaves_in (memory_of work.now) w) }
{
    if tag(w) <= NUMBER {
        return with_leaf(no_leaves(), leaf_of(w));
    }
    gather(work, 8, w, no_leaves())
}
