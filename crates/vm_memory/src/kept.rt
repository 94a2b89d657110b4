// Values that are kept (card 6), the outermost first: the label, and the value above 2^28. A stack's entry has that word in the
// first word of its piece, and the rest of the stack in the second.
ghost use Rattle.std.specs.Prelude.{◌≡◌, ◌<◌, ◌≤◌, length};
ghost use Rattle.calculus.specs.Limits.{label_limit};
ghost use Rattle.base_bytes.specs.Memory.{memory_length};
ghost use Rattle.vm_machine.specs.Memory.{kept_at, put_kept, entry_label, is_kept, top_entry, rest_of};
ghost use Rattle.vm_machine.specs.Registers.{frame_slots};
ghost use Rattle.vm_memory.specs.View.{memory_of, Holds};

use crate::labels::LABELS;
use crate::pieces::{piece_first, piece_of, piece_second};
use crate::words::{KEPT, above, put_word, word};
use vm_words::value;
use vm_words::value::tag;

pub fn kept_at(work: &[u8], i: usize) -> u64
    requires { (memory_length ≤ length work.now) × (i < frame_slots) }
    ensures { result ≡ kept_at (memory_of work.now) i }
{
    word(work, KEPT + i)
}

pub fn put_kept(work: &mut [u8], i: usize, v: u64, label: u64)
    requires { (memory_length ≤ length work.old) × (i < frame_slots) × (label < label_limit) }
    ensures { Holds (put_kept i v label (memory_of work.old)) work.old work.new }
{
    put_word(work, KEPT + i, above(v, label));
}

// The label of a kept value, from its word.
pub fn entry_label(w: u64) -> u64
    ensures { (result ≡ entry_label w) × (result < label_limit) }
{
    w % LABELS
}

// Of the stack v: whether it has an entry, its top entry's word, and the rest.
pub fn is_kept(v: u64) -> bool
    ensures { result ≡ is_kept v }
{
    tag(v) == value::KEPT
}

pub fn top_entry(work: &[u8], v: u64) -> u64
    requires { memory_length ≤ length work.now }
    ensures { result ≡ top_entry (memory_of work.now) v }
{
    piece_first(work, piece_of(v))
}

pub fn rest_of(work: &[u8], v: u64) -> u64
    requires { memory_length ≤ length work.now }
    ensures { result ≡ rest_of (memory_of work.now) v }
{
    if is_kept(v) {
        return piece_second(work, piece_of(v));
    }
    v
}
