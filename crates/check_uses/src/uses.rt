// Refusal 11: each term but the root is used exactly once.
ghost use Rattle.std.specs.Prelude.{◌≡◌, ◌≤◌, length, get_or};
ghost use Rattle.laws.specs.Tests.{all_below};
ghost use Rattle.check_uses.specs.Marks.{is_once, FirstMisused};

use crate::children::{AGAIN, USED};
use crate::marks::mark_of;
use read_records::numbers::TermNo;

// The mark is that of a term that is used once.
fn is_once(mark: u8) -> bool
    ensures { result ≡ is_once mark }
{
    USED <= mark && mark < AGAIN
}

// Each term before the root is used once. There is no way out of the loop, so that many are tested at once.
fn all_once(marks: &[u8], root: TermNo) -> bool
    requires { root.0 ≤ length marks.now }
    ensures { result ≡ all_below root.0 (λ k. is_once (get_or marks.now k 0)) }
{
    let mut ok = true;
    for i in 0..root.0 {
        ok &= is_once(mark_of(marks, TermNo(i)));
    }
    ok
}

// The first term before the root that is not used, or is used again; the root if there is none.
pub fn first_misused(marks: &[u8], root: TermNo) -> TermNo
    requires { root.0 ≤ length marks.now }
    ensures { FirstMisused marks.now root.0 result.0 }
{
    if all_once(marks, root) {
        return root;
    }
    for i in 0..root.0 {
        if !is_once(mark_of(marks, TermNo(i))) {
            return TermNo(i);
        }
    }
    root
}
