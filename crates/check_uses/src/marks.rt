// The marks of the terms: a number for each.
ghost use Rattle.std.specs.Prelude.{◌≡◌, ◌<◌, length, get_or, set};
ghost use Rattle.check_uses.specs.Marks.{more};

use read_records::numbers::TermNo;

// One more, up to a limit.
pub fn one_more(limit: u8, n: u8) -> u8
    ensures { result ≡ more limit n }
{
    if n < limit { n + 1 } else { limit }
}

// A term's mark.
pub fn mark_of(marks: &[u8], n: TermNo) -> u8
    requires { n.0 < length marks.now }
    ensures { result ≡ get_or marks.now n.0 0 }
{
    marks[n.0 as usize]
}

pub fn set_mark(marks: &mut [u8], n: TermNo, v: u8)
    requires { n.0 < length marks.old }
    ensures { marks.new ≡ set marks.old n.0 v }
{
    marks[n.0 as usize] = v;
}
