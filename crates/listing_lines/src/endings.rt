// How a run ended: the outcome's word with the steps, and the result.
ghost use Rattle.report.specs.Read.{read_report};
ghost use Rattle.listing_lines.specs.Text.{ascii};
ghost use Rattle.listing_lines.specs.Lines.{outcome_word, outcome_line, value_line, result_line, ending_lines};
ghost use Rattle.listing_lines.specs.Puts.{Puts};

use crate::leaves::put_leaves;
use crate::text::{put, put_decimal};
use calculus::Outcome;
use report::Ending;

fn put_word(out: &mut [u8], at: usize, o: Outcome) -> usize
    ensures { Puts out.old at (ascii (outcome_word o)) out.new result }
{
    match o {
        Outcome::Done => put(out, at, b"done"),
        Outcome::Spent => put(out, at, b"spent"),
        Outcome::Aborted => put(out, at, b"aborted"),
        Outcome::Frames => put(out, at, b"frames"),
        Outcome::Bindings => put(out, at, b"bindings"),
        Outcome::Cells => put(out, at, b"cells"),
        Outcome::Labels => put(out, at, b"labels"),
        Outcome::Advice => put(out, at, b"advice"),
        Outcome::Pieces => put(out, at, b"pieces"),
        Outcome::Log => put(out, at, b"log"),
        Outcome::OtherBindings => put(out, at, b"other-bindings"),
        Outcome::OtherCells => put(out, at, b"other-cells"),
        Outcome::OtherPieces => put(out, at, b"other-pieces"),
    }
}

fn put_outcome(out: &mut [u8], at: usize, outcome: Outcome, steps: u32) -> usize
    ensures { Puts out.old at (outcome_line outcome steps) out.new result }
{
    let o = put_word(out, at, outcome);
    let o = put(out, o, b" ");
    let o = put_decimal(out, o, steps as u64);
    put(out, o, b"\n")
}

// `value` and the leaves that a report has.
fn put_value(out: &mut [u8], at: usize, report: &[u8]) -> usize
    ensures { Puts out.old at (value_line (read_report report.now).result) out.new result }
{
    let o = put(out, at, b"value");
    let o = put_leaves(out, o, report);
    put(out, o, b"\n")
}

fn put_result(out: &mut [u8], at: usize, outcome: Outcome, report: &[u8]) -> usize
    ensures { Puts out.old at (result_line outcome (read_report report.now).result) out.new result }
{
    if outcome == Outcome::Done {
        return put_value(out, at, report);
    }
    at
}

pub fn put_ending(out: &mut [u8], at: usize, ending: Ending, steps: u32, report: &[u8]) -> usize
    ensures { Puts out.old at (ending_lines ending steps (read_report report.now).result) out.new result }
{
    match ending {
        Ending::NoOutcome => at,
        Ending::Ended(outcome) => {
            let o = put_outcome(out, at, outcome, steps);
            put_result(out, o, outcome, report)
        }
    }
}
