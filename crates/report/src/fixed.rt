// Records of ten bytes: those of the log, and the first of the report.
ghost use Rattle.std.specs.Prelude.{◌≡◌, ◌+◌, ◌≤◌, length};
ghost use Rattle.calculus.specs.Report.{outcome_number};
ghost use Rattle.calculus.specs.Limits.{log_record_length};
ghost use Rattle.base_bytes.specs.Bytes.{over};
ghost use Rattle.base_bytes.specs.Records.{log_record};
ghost use Rattle.report.specs.Written.{head_bytes};

use crate::numbers::{put_header, put16, put32};
use calculus::{LOG_RECORD_LENGTH, Outcome};
use read_records::numbers::DomainNo;

// Kinds of records.
pub const LOG: u16 = 64;

const REPORT: u16 = 70;

const LOG_LENGTH: u16 = LOG_RECORD_LENGTH as u16;

// A printed number with its domain.
pub fn put_log(log: &mut [u8], at: usize, dom: DomainNo, number: u32)
    requires { at + log_record_length ≤ length log.old }
    ensures { log.new ≡ over at (log_record dom.0 number) log.old }
{
    put_header(log, at, LOG_LENGTH, LOG);
    put16(log, at + 4, dom.0);
    put32(log, at + 6, number);
}

// The report's first record.
pub fn put_head(report: &mut [u8], outcome: Outcome, steps: u32)
    requires { 10 ≤ length report.old }
    ensures { report.new ≡ over 0 (head_bytes (outcome_number outcome) steps) report.old }
{
    put_header(report, 0, 10, REPORT);
    put16(report, 4, u16::from(outcome));
    put32(report, 6, steps);
}
