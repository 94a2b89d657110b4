// The records of the cells.
ghost use Rattle.std.specs.Prelude.{◌≡◌, ◌+◌, ◌*◌, ◌%◌, ◌<◌, ◌≤◌, length};
ghost use Rattle.image.specs.Limits.{domain_limit};
ghost use Rattle.base_bytes.specs.Bytes.{over};
ghost use Rattle.base_bytes.specs.Memory.{memory_length};
ghost use Rattle.report.specs.Written.{cell_bytes, cells_bytes};
ghost use Rattle.vm_memory.specs.View.{memory_of};
ghost use Rattle.vm_machine.specs.Memory.{cell_places};
ghost use Rattle.vm_results.specs.Ended.{cell_in_of, cells_from};

use crate::leaves::plain_leaves;
use read_records::numbers::DomainNo;
use report::cells::{put_other_cell, put_plain_cell};
use vm_memory::cells::{cell_at, cell_note};
use vm_words::code::DOMAINS;

// The domain that a cell's note names.
fn note_domain(note: u64) -> DomainNo
    ensures { result.0 ≡ note % domain_limit }
{
    DomainNo((note % DOMAINS) as u16)
}

// Cell i; answers the offset past it. A plain cell's note is no domain's.
pub fn put_cell(report: &mut [u8], at: usize, work: &[u8], i: usize) -> usize
    requires { (memory_length ≤ length work.now) × (i < cell_places) × (at + 70 ≤ length report.old) }
    ensures { (result ≡ at + length (cell_bytes (cell_in_of (memory_of work.now) i))) × (report.new ≡ over at (cell_bytes (cell_in_of (memory_of work.now) i)) report.old) }
{
    let w = cell_at(work, i);
    let note = cell_note(w);
    let dom = note_domain(note);
    if note < DOMAINS {
        return put_other_cell(report, at, dom);
    }
    let g = plain_leaves(work, w);
    put_plain_cell(report, at, dom, g.slots, g.count)
}

// The first n cells, in order of creation; answers the offset past them. A cell takes 70 bytes at most.
pub fn put_cells(report: &mut [u8], at: usize, work: &[u8], n: usize) -> usize
    requires { (memory_length ≤ length work.now) × (n ≤ cell_places) × (at + 70 * n ≤ length report.old) }
    ensures { (result ≡ at + length (cells_bytes (cells_from (memory_of work.now) n 0))) × (report.new ≡ over at (cells_bytes (cells_from (memory_of work.now) n 0)) report.old) × (result ≤ at + 70 * n) }
{
    let mut o = at;
    for i in 0..n {
        o = put_cell(report, o, work, i);
    }
    o
}
