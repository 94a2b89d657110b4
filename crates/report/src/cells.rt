// The records of cells.
ghost use Rattle.std.specs.Prelude.{◌≡◌, ◌+◌, ◌*◌, ◌≤◌, length};
ghost use Rattle.std.proofs.Math.Option.{none, some};
ghost use Rattle.base_bytes.specs.Bytes.{over};
ghost use Rattle.report.specs.Written.{leaves_in, cell_bytes};

use crate::Slot;
use crate::leaves::put_leaves;
use crate::numbers::{put_header, put16};
use calculus::LEAF_LIMIT;
use read_records::numbers::DomainNo;

// Kinds of records.
pub const PLAIN_CELL: u16 = 68;

pub const OTHER_CELL: u16 = 69;

// A plain cell, with its leaves inside its length; answers the offset past it.
pub fn put_plain_cell(
    report: &mut [u8],
    at: usize,
    dom: DomainNo,
    slots: [Slot; LEAF_LIMIT],
    count: usize,
) -> usize
    requires { (count ≤ 8) × (at + 6 + 8 * count ≤ length report.old) }
    ensures { (result ≡ at + length (cell_bytes (record { dom = dom.0; held = some (leaves_in count slots) }))) × (report.new ≡ over at (cell_bytes (record { dom = dom.0; held = some (leaves_in count slots) })) report.old) }
{
    let end = put_leaves(report, at + 6, slots, count);
    put_header(report, at, (end - at) as u16, PLAIN_CELL);
    put16(report, at + 4, dom.0);
    end
}

// Another cell; answers the offset past it.
pub fn put_other_cell(report: &mut [u8], at: usize, dom: DomainNo) -> usize
    requires { at + 6 ≤ length report.old }
    ensures { (result ≡ at + length (cell_bytes (record { dom = dom.0; held = none }))) × (report.new ≡ over at (cell_bytes (record { dom = dom.0; held = none })) report.old) }
{
    put_header(report, at, 6, OTHER_CELL);
    put16(report, at + 4, dom.0);
    at + 6
}
