// The lines of printed numbers and of cells.
ghost use Rattle.std.proofs.Math.Option.{none, some};
ghost use Rattle.calculus.specs.State.{picked};
ghost use Rattle.report.specs.Records.{records_in};
ghost use Rattle.report.specs.Read.{leaf_in, read_log, read_report};
ghost use Rattle.listing_lines.specs.Text.{texts};
ghost use Rattle.listing_lines.specs.Lines.{print_line, cell_line};
ghost use Rattle.listing_lines.specs.Offsets.{print_text_in, cell_text_in};
ghost use Rattle.listing_lines.specs.Puts.{Puts};

use crate::leaves::put_leaves;
use crate::offsets::{behind, long, size_at, word};
use crate::text::{put, put_decimal, put_signed};
use report::cells::{OTHER_CELL, PLAIN_CELL};
use report::fixed::LOG;

// `log D N`.
fn put_printed(out: &mut [u8], at: usize, dom: u16, n: u32) -> usize
    ensures { Puts out.old at (print_line (record { dom = dom; shown = n })) out.new result }
{
    let o = put(out, at, b"log ");
    let o = put_decimal(out, o, dom as u64);
    let o = put(out, o, b" ");
    let o = put_signed(out, o, n);
    put(out, o, b"\n")
}

// `cell D` and the leaves that its record has inside.
fn put_plain_cell(out: &mut [u8], at: usize, dom: u16, leaves: &[u8]) -> usize
    ensures { Puts out.old at (cell_line (record { dom = dom; held = some (picked leaf_in (records_in leaves.now)) })) out.new result }
{
    let o = put(out, at, b"cell ");
    let o = put_decimal(out, o, dom as u64);
    let o = put_leaves(out, o, leaves);
    put(out, o, b"\n")
}

// `cell D other`.
fn put_other_cell(out: &mut [u8], at: usize, dom: u16) -> usize
    ensures { Puts out.old at (cell_line (record { dom = dom; held = none })) out.new result }
{
    let o = put(out, at, b"cell ");
    let o = put_decimal(out, o, dom as u64);
    let o = put(out, o, b" other");
    put(out, o, b"\n")
}

// The line of a record of the log; nothing of a record of another kind.
fn put_print(out: &mut [u8], at: usize, kind: u16, fields: &[u8]) -> usize
    ensures { Puts out.old at (print_text_in (record { kind = kind; fields = fields.now })) out.new result }
{
    if kind != LOG {
        return at;
    }
    put_printed(
        out,
        at,
        word(fields, 0),
        long(word(fields, 2), word(fields, 4)),
    )
}

// The line of a cell's record; nothing of a record of another kind.
fn put_cell(out: &mut [u8], at: usize, kind: u16, fields: &[u8]) -> usize
    ensures { Puts out.old at (cell_text_in (record { kind = kind; fields = fields.now })) out.new result }
{
    match kind {
        PLAIN_CELL => put_plain_cell(out, at, word(fields, 0), behind(fields, 2)),
        OTHER_CELL => put_other_cell(out, at, word(fields, 0)),
        _ => at,
    }
}

// The lines of a log.
pub fn put_prints(out: &mut [u8], at: usize, log: &[u8]) -> usize
    ensures { Puts out.old at (texts print_line (read_log log.now)) out.new result }
{
    let mut o = at;
    let mut i: usize = 0;
    let mut size = size_at(log, i);
    while 0 < size {
        let end = i + size;
        let fields = i + 4;
        o = put_print(out, o, word(log, i + 2), &log[fields..end]);
        i = end;
        size = size_at(log, i);
    }
    o
}

// The lines of a report's cells.
pub fn put_cells(out: &mut [u8], at: usize, report: &[u8]) -> usize
    ensures { Puts out.old at (texts cell_line (read_report report.now).cells) out.new result }
{
    let mut o = at;
    let mut i: usize = 0;
    let mut size = size_at(report, i);
    while 0 < size {
        let end = i + size;
        let fields = i + 4;
        o = put_cell(out, o, word(report, i + 2), &report[fields..end]);
        i = end;
        size = size_at(report, i);
    }
    o
}
