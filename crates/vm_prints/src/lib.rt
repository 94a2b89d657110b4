// An inner crate: the reduction of a print, which writes a record of the log.
#![tactic(auto)]

ghost use Rattle.std.specs.Prelude.{◌≤◌, ◌<◌, length};
ghost use Rattle.base_bytes.specs.Memory.{memory_length};
ghost use Rattle.vm_machine.specs.Registers.{fuel_bias};
ghost use Rattle.vm_machine.specs.Fits.{Fits};
ghost use Rattle.vm_machine.specs.Reduce.{reduce_print};
ghost use Rattle.vm_registers.specs.Phases.{state_of, Represents};

use calculus::{LOG_RECORD_LENGTH, outcomes};
use read_records::numbers::DomainNo;
use report::fixed::put_log;
use vm_machine::Regs;
use vm_registers::ends::given;
use vm_registers::regs::halt;
use vm_words::code::domain_of;
use vm_words::value::body;

// The number x is printed, at the domain of the instruction.
pub fn reduce_print(work: &mut [u8], log: &mut [u8], r: Regs, w: u64, x: u64) -> Regs
    requires { (memory_length ≤ length work.old) × (fuel_bias < r.fuel) × Fits (length log.old) r }
    ensures { Represents (reduce_print w x (state_of work.old log.old r)) work.old work.new log.new result }
{
    let at = r.logged;
    if log.len() - at < LOG_RECORD_LENGTH {
        return halt(r, outcomes::LOG);
    }
    let dom: DomainNo = domain_of(w);
    put_log(log, at, dom, body(x) as u32);
    let mut q = given(work, r, w, 0);
    q.logged = at + LOG_RECORD_LENGTH;
    q
}
