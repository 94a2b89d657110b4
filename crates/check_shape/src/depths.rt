// Refusal 12: no term is deeper than 64, where the root has depth 1. A depth is kept up to one past the limit.
ghost use Rattle.std.specs.Prelude.{◌≡◌, ◌≤◌, length};
ghost use Rattle.check_shape.specs.Depths.{deep_from};

use check_uses::marks::mark_of;
use image::{DEPTH_LIMIT, Refusal, Refused};
use read_records::numbers::{TermNo, term_offset};
use verdict::Verdict;

pub const DEEPEST: u8 = DEPTH_LIMIT as u8;

pub const TOO_DEEP: u8 = DEEPEST + 1;

// Refused at the first term before the end that is too deep.
pub fn first_deep(depths: &[u8], terms: &[u16], end: TermNo) -> Verdict
    requires { (end.0 ≤ length depths.now) × (end.0 ≤ length terms.now) }
    ensures { result ≡ deep_from terms.now depths.now end.0 0 }
{
    for i in 0..end.0 {
        let n = TermNo(i);
        if DEEPEST < mark_of(depths, n) {
            return Err(Refused {
                why: Refusal::TooDeep,
                place: term_offset(terms, n),
            });
        }
    }
    Ok(())
}
