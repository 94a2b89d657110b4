// The leaves of a result or of a cell.
ghost use Rattle.std.specs.Prelude.{◌≡◌, ◌+◌, ◌*◌, ◌≤◌, length};
ghost use Rattle.base_bytes.specs.Bytes.{over};
ghost use Rattle.report.specs.Written.{leaf_bytes, leaves_bytes, leaves_in};

use crate::Slot;
use crate::numbers::{put_header, put16, put32};
use calculus::{LEAF_LIMIT, Leaf};

// Kinds of records.
pub const UNIT: u16 = 65;

pub const TRUTH: u16 = 66;

pub const NUMBER: u16 = 67;

// A leaf's record; answers the offset past it.
fn put_leaf(report: &mut [u8], at: usize, leaf: Leaf) -> usize
    requires { at + 8 ≤ length report.old }
    ensures { (result ≡ at + length (leaf_bytes leaf)) × (report.new ≡ over at (leaf_bytes leaf) report.old) }
{
    match leaf {
        Leaf::Unit => {
            put_header(report, at, 4, UNIT);
            at + 4
        }
        Leaf::Truth(b) => {
            put_header(report, at, 6, TRUTH);
            put16(report, at + 4, u16::from(b));
            at + 6
        }
        Leaf::Number(n) => {
            put_header(report, at, 8, NUMBER);
            put32(report, at + 4, n);
            at + 8
        }
    }
}

// The records of the first leaves, left to right; answers the offset past them.
pub fn put_leaves(report: &mut [u8], at: usize, slots: [Slot; LEAF_LIMIT], count: usize) -> usize
    requires { (count ≤ 8) × (at + 8 * count ≤ length report.old) }
    ensures { (result ≡ at + length (leaves_bytes (leaves_in count slots))) × (report.new ≡ over at (leaves_bytes (leaves_in count slots)) report.old) }
{
    let mut o = at;
    for slot in &slots[..count] {
        o = put_leaf(report, o, slot.leaf);
    }
    o
}
