// Card 9: the half of each room that is charged, whether it has room, and the outcome where it has none.
ghost use Rattle.std.specs.Prelude.{◌≡◌, ◌+◌, ◌≤◌, eqb};
ghost use Rattle.calculus.specs.Report.{outcome_number};
ghost use Rattle.vm_pools.specs.Pools.{whole, pool_bound, has_capacity, bindings_out, cells_out, pieces_out};
ghost use Rattle.vm_machine.specs.Quotas.{quota_of};

use calculus::outcomes;
use read_records::numbers::{DomainNo, MAINLINE};
use vm_pools::Pool;
use vm_words::code::domain_of;

// The domain is the mainline's.
pub fn is_mainline(d: DomainNo) -> bool
    ensures { result ≡ eqb d.0 0 }
{
    d.0 == MAINLINE.0
}

// The half that the instruction with word w charges, by the domain at which it runs.
pub fn quota_of(w: u64) -> bool
    ensures { result ≡ quota_of w }
{
    is_mainline(domain_of(w))
}

// So many more of one half stay within its limit.
pub fn has_capacity(p: Pool, mainline: bool, n: usize, limit: usize) -> bool
    requires { whole p + n ≤ pool_bound }
    ensures { result ≡ has_capacity limit mainline n p }
{
    p.quota(mainline) + n <= limit
}

// The outcomes of the half that lacks room.
// Kept: each is one choice of two outcomes; one function for the three would be handed both at every call.
pub fn bindings_out(mainline: bool) -> u32
    ensures { result ≡ outcome_number (bindings_out mainline) }
{
    if mainline {
        outcomes::BINDINGS
    } else {
        outcomes::OTHER_BINDINGS
    }
}

pub fn cells_out(mainline: bool) -> u32
    ensures { result ≡ outcome_number (cells_out mainline) }
{
    if mainline {
        outcomes::CELLS
    } else {
        outcomes::OTHER_CELLS
    }
}

pub fn pieces_out(mainline: bool) -> u32
    ensures { result ≡ outcome_number (pieces_out mainline) }
{
    if mainline {
        outcomes::PIECES
    } else {
        outcomes::OTHER_PIECES
    }
}
