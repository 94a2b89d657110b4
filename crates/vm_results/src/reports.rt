// The answer and the report.
ghost use Rattle.std.specs.Prelude.{◌≡◌, ◌≤◌, length};
ghost use Rattle.image.specs.Limits.{report_length};
ghost use Rattle.base_bytes.specs.Bytes.{over};
ghost use Rattle.base_bytes.specs.Memory.{memory_length};
ghost use Rattle.vm_pools.specs.Pools.{whole};
ghost use Rattle.vm_memory.specs.View.{memory_of};
ghost use Rattle.vm_machine.specs.Memory.{cell_places};
ghost use Rattle.vm_results.specs.Gathered.{gathered};
ghost use Rattle.vm_results.specs.Ended.{outcome_with, result_in, report_in, answer_in};

use crate::Gathered;
use crate::cells::put_cells;
use crate::leaves::{no_leaves, plain_leaves};
use calculus::{Outcome, outcomes};
use call_spec::Answer;
use report::Ending;
use report::fixed::put_head;
use report::leaves::put_leaves;
use vm_machine::Regs;

// The outcome with a number.
fn outcome_with(n: u32) -> Outcome
    ensures { result ≡ outcome_with n }
{
    match n {
        outcomes::DONE => Outcome::Done,
        outcomes::SPENT => Outcome::Spent,
        outcomes::ABORTED => Outcome::Aborted,
        outcomes::FRAMES => Outcome::Frames,
        outcomes::BINDINGS => Outcome::Bindings,
        outcomes::CELLS => Outcome::Cells,
        outcomes::LABELS => Outcome::Labels,
        outcomes::ADVICE => Outcome::Advice,
        outcomes::PIECES => Outcome::Pieces,
        outcomes::LOG => Outcome::Log,
        outcomes::OTHER_BINDINGS => Outcome::OtherBindings,
        outcomes::OTHER_CELLS => Outcome::OtherCells,
        _ => Outcome::OtherPieces,
    }
}

// The cells of both halves (card 9).
fn cell_count(r: Regs) -> usize
    requires { whole r.pools.cells ≤ cell_places }
    ensures { result ≡ whole r.pools.cells }
{
    r.pools.cells.whole()
}

// The report of a machine that halted, and its answer, in whose slots the result's leaves stand: the report's leaves are
// written from there.
fn put_answer(report: &mut [u8], work: &[u8], r: Regs, budget: u32, g: Gathered) -> Answer
    requires { (memory_length ≤ length work.now) × (report_length ≤ length report.old) × (whole r.pools.cells ≤ cell_places) × (r.rest ≤ budget) × (g ≡ gathered (result_in (memory_of work.now) r)) }
    ensures { (result ≡ answer_in (memory_of work.now) r budget) × (report.new ≡ over 0 (report_in (memory_of work.now) r budget) report.old) }
{
    let outcome = outcome_with(r.outcome);
    let steps = budget - (r.rest as u32);
    put_head(report, outcome, steps);
    let leaves = g.slots;
    let at = put_leaves(report, 10, leaves, g.count);
    let end = put_cells(report, at, work, cell_count(r));
    Answer {
        verdict: Ok(()),
        ending: Ending::Ended(outcome),
        steps,
        log: r.logged,
        report: end,
        count: g.count,
        leaves,
    }
}

// A run that is done has the leaves of the value at hand; any other has none.
pub fn put_report(report: &mut [u8], work: &[u8], r: Regs, budget: u32) -> Answer
    requires { (memory_length ≤ length work.now) × (report_length ≤ length report.old) × (whole r.pools.cells ≤ cell_places) × (r.rest ≤ budget) }
    ensures { (result ≡ answer_in (memory_of work.now) r budget) × (report.new ≡ over 0 (report_in (memory_of work.now) r budget) report.old) }
{
    if r.outcome == outcomes::DONE {
        return put_answer(report, work, r, budget, plain_leaves(work, r.acc));
    }
    put_answer(report, work, r, budget, no_leaves())
}
