// Sets of labels, a bit each; and labels as digits, in the base of how many labels there are, under a leading 1, the latest lowest.
ghost use Rattle.std.specs.Prelude.{◌≡◌, ◌<◌};
ghost use Rattle.calculus.specs.Limits.{label_limit};
ghost use Rattle.vm_machine.specs.Memory.{has_bit, with_bit, with_digit, digit_count, label_set};

use calculus::LABEL_LIMIT;

// There are so many labels: they are numbers below this, and digits in this base.
pub const LABELS: u64 = LABEL_LIMIT as u64;

// What stays of the digits where one more is put below them is less than this, 2^58: 64 times it fits a word.
const SHIFTED: u64 = 288230376151711744;

pub fn has_bit(s: u64, l: u64) -> bool
    requires { l < label_limit }
    ensures { result ≡ has_bit s l }
{
    (s >> l) % 2 == 1
}

fn with_bit(s: u64, l: u64) -> u64
    requires { l < label_limit }
    ensures { result ≡ with_bit s l }
{
    s | (1 << l)
}

pub fn with_digit(d: u64, l: u64) -> u64
    requires { l < label_limit }
    ensures { result ≡ with_digit d l }
{
    LABELS * (d % SHIFTED) + l
}

// How many digits there are, at most n.
pub fn digit_count(n: usize, digits: u64) -> usize
    ensures { result ≡ digit_count n digits }
{
    let mut d = digits;
    for i in 0..n {
        if d <= 1 {
            return i;
        }
        d /= LABELS;
    }
    n
}

// The set of the n lowest.
pub fn label_set(n: usize, digits: u64) -> u64
    ensures { result ≡ label_set n digits 0 }
{
    let mut d = digits;
    let mut s: u64 = 0;
    for _ in 0..n {
        s = with_bit(s, d % LABELS);
        d /= LABELS;
    }
    s
}
