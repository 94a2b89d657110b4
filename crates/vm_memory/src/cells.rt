// Cells: the note, and the value above 2^28; the note is the cell's domain, and as many more as there are domains where it is plain.
ghost use Rattle.std.specs.Prelude.{◌≡◌, ◌<◌, ◌≤◌, length};
ghost use Rattle.base_bytes.specs.Memory.{memory_length};
ghost use Rattle.vm_machine.specs.Memory.{cell_at, put_cell, cell_note, cell_of, cell_places};
ghost use Rattle.vm_memory.specs.View.{memory_of, Holds};

use crate::words::{CELL_PLACES, CELLS, above, put_word, word};
use vm_words::value::body;

// Notes have two bytes.
const NOTES: u64 = 65536;

// The cell that a value refers to.
pub fn cell_of(v: u64) -> usize
    ensures { result ≡ cell_of v }
{
    body(v) as usize % CELL_PLACES
}

pub fn cell_at(work: &[u8], r: usize) -> u64
    requires { (memory_length ≤ length work.now) × (r < cell_places) }
    ensures { result ≡ cell_at (memory_of work.now) r }
{
    word(work, CELLS + r)
}

pub fn cell_note(w: u64) -> u64
    ensures { result ≡ cell_note w }
{
    w % NOTES
}

pub fn put_cell(work: &mut [u8], r: usize, v: u64, note: u64)
    requires { (memory_length ≤ length work.old) × (r < cell_places) × (note < 65536) }
    ensures { Holds (put_cell r v note (memory_of work.old)) work.old work.new }
{
    put_word(work, CELLS + r, above(v, note));
}

// What the cell holds that a value refers to.
pub fn read_cell(work: &[u8], v: u64) -> u64
    requires { memory_length ≤ length work.now }
    ensures { result ≡ cell_at (memory_of work.now) (cell_of v) }
{
    cell_at(work, cell_of(v))
}

// It holds another value.
pub fn store_cell(work: &mut [u8], r: usize, v: u64)
    requires { (memory_length ≤ length work.old) × (r < cell_places) }
    ensures { Holds (put_cell r v (cell_note (cell_at (memory_of work.old) r)) (memory_of work.old)) work.old work.new }
{
    let note = cell_note(cell_at(work, r));
    put_cell(work, r, v, note);
}
