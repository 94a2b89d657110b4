// The words of the tables.
ghost use Rattle.std.specs.Prelude.{◌≡◌, ◌<◌, ◌≤◌, length};
ghost use Rattle.base_bytes.specs.Memory.{memory_length, word_count};
ghost use Rattle.vm_machine.specs.Memory.{word_at, put_word};
ghost use Rattle.vm_machine.specs.Memory as machine;
ghost use Rattle.vm_code.specs.Values.{tag_place};
ghost use Rattle.vm_memory.specs.View.{memory_of, Holds};

use calculus::{ADVICE_LIMIT, BINDING_LIMIT, CELL_LIMIT, FRAME_LIMIT, PIECE_LIMIT};

// How many places each table has (document 01, "A run"): both halves of bindings, pieces and cells share one (card 9). A run has
// 512 frames at most, and one slot more; no more values than that are kept (card 6).
pub const BINDING_PLACES: usize = 2 * BINDING_LIMIT;

pub const SLOT_PLACES: usize = FRAME_LIMIT + 1;

pub const PIECE_PLACES: usize = 2 * PIECE_LIMIT;

pub const CELL_PLACES: usize = 2 * CELL_LIMIT;

const INSTALLED_PLACES: usize = ADVICE_LIMIT;

const KEPT_PLACES: usize = SLOT_PLACES;

// Where each table but the first, the bindings, begins, in words: behind those before it. A piece has two words.
pub const SLOTS: usize = BINDING_PLACES;

pub const PIECES: usize = SLOTS + SLOT_PLACES;

pub const CELLS: usize = PIECES + 2 * PIECE_PLACES;

pub const INSTALLED: usize = CELLS + CELL_PLACES;

pub const KEPT: usize = INSTALLED + INSTALLED_PLACES;

// Where the single bytes beside the slots begin, in bytes: behind all words, which have eight.
pub const BESIDE: usize = 8 * (KEPT + KEPT_PLACES);

// The low bits of a table's word are the table's own; the tag and body of a value stand above them, where they stand in the value.
pub const ABOVE: u64 = vm_words::value::TAG;

// Kept: the tables' own readers and writers are each one call of these two at the table's base; with the base as a const
// parameter each caller would write out what the reader's name says.
pub fn word(work: &[u8], i: usize) -> u64
    requires { (memory_length ≤ length work.now) × (i < word_count) }
    ensures { result ≡ word_at (memory_of work.now) i }
{
    base_bytes::load(work, i)
}

pub fn put_word(work: &mut [u8], i: usize, v: u64)
    requires { (memory_length ≤ length work.old) × (i < word_count) }
    ensures { Holds (put_word i v (memory_of work.old)) work.old work.new }
{
    base_bytes::store(work, i, v);
}

// The tag and body of a value above 2^28, x below.
pub fn above(v: u64, x: u64) -> u64
    requires { x < tag_place }
    ensures { result ≡ machine.above v x }
{
    x + ABOVE * (v / ABOVE)
}
