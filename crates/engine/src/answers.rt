// The answer of a refusal.
ghost use Rattle.std.specs.Prelude.{◌≡◌};
ghost use Rattle.call_spec.specs.Calls.{refused_answer};

use calculus::{LEAF_LIMIT, Leaf};
use call_spec::Answer;
use image::{Refusal, Refused};
use report::{Ending, Slot};
use verdict::Verdict;

// The answer of a call that makes no run: it has no outcome.
pub fn refused(why: Refusal, place: usize) -> Answer
    ensures { result ≡ refused_answer why place }
{
    let unit = Slot { leaf: Leaf::Unit };
    let slots = [unit; LEAF_LIMIT];
    let verdict: Verdict = Err(Refused { why, place });
    let ending = Ending::NoOutcome;
    Answer {
        verdict: verdict,
        ending: ending,
        steps: 0,
        log: 0,
        report: 0,
        count: 0,
        leaves: slots,
    }
}
