// The leaves of a result or of a cell, each after a space.
ghost use Rattle.report.specs.Records.{records_in};
ghost use Rattle.report.specs.Read.{leaf_in};
ghost use Rattle.calculus.specs.State.{picked};
ghost use Rattle.calculus.specs.declared.Leaf.{Leaf};
ghost use Rattle.listing_lines.specs.Lines.{leaf_text, leaves_text};
ghost use Rattle.listing_lines.specs.Offsets.{leaf_text_in};
ghost use Rattle.listing_lines.specs.Puts.{Puts};

use crate::offsets::{long, size_at, word};
use crate::text::{put, put_signed};
use report::leaves::{NUMBER, TRUTH, UNIT};

fn put_truth(out: &mut [u8], at: usize, b: bool) -> usize
    ensures { Puts out.old at (leaf_text (Leaf.Truth b)) out.new result }
{
    if b {
        return put(out, at, b" true");
    }
    put(out, at, b" false")
}

fn put_number(out: &mut [u8], at: usize, n: u32) -> usize
    ensures { Puts out.old at (leaf_text (Leaf.Number n)) out.new result }
{
    let o = put(out, at, b" ");
    put_signed(out, o, n)
}

// The leaf that a record says; nothing of a record of another kind.
fn put_leaf(out: &mut [u8], at: usize, kind: u16, fields: &[u8]) -> usize
    ensures { Puts out.old at (leaf_text_in (record { kind = kind; fields = fields.now })) out.new result }
{
    match kind {
        UNIT => put(out, at, b" unit"),
        TRUTH => put_truth(out, at, word(fields, 0) == 1),
        NUMBER => put_number(out, at, long(word(fields, 0), word(fields, 2))),
        _ => at,
    }
}

// The leaves among the records that stand end to end.
pub fn put_leaves(out: &mut [u8], at: usize, s: &[u8]) -> usize
    ensures { Puts out.old at (leaves_text (picked leaf_in (records_in s.now))) out.new result }
{
    let mut o = at;
    let mut i: usize = 0;
    let mut size = size_at(s, i);
    while 0 < size {
        let end = i + size;
        let fields = i + 4;
        o = put_leaf(out, o, word(s, i + 2), &s[fields..end]);
        i = end;
        size = size_at(s, i);
    }
    o
}
