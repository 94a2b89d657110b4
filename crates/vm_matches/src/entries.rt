// The fields of a match with word w from its stack on: the stack, two branches, the entries and the close.
ghost use Rattle.std.specs.Prelude.{◌≡◌, List, ℕ, ◌≤◌, ◌<◌, length};
ghost use Rattle.vm_code.specs.Words.{term_count, count_of, count_size};
ghost use Rattle.vm_machine.specs.Fetch.{Program};
ghost use Rattle.vm_machine.specs.Stacks.{cut_term, binds_rest};
ghost use Rattle.vm_machine.specs.Stacks as machine;
ghost use Rattle.vm_matches.specs.Matching.{match_fields, entry_in, stops_at, looked_of};

use crate::Progress;
use read_records::fields::field_or_zero;
use read_records::numbers::TermNo;
use read_records::reader::part;
use vm_memory::kept::is_kept;
use vm_words::classes::INSTRUCTION;
use vm_words::code::{class_of, count_of, offset_of};
use vm_words::terms::{term_with, word_of};

// The fields before the first entry: the stack and two branches.
// Kept: places among the fields and not kinds: an enum would be turned back into a number where a field is read.
pub const STACK: usize = 0;

pub const FIRST_BRANCH: usize = 1;

pub const OTHER_BRANCH: usize = 2;

const FIRST_ENTRY: usize = 3;

pub fn match_fields(image: &[u8], w: u64) -> &[u8]
    ensures { result.now ≡ match_fields image.now w }
{
    part(image, offset_of(w), 2 * (FIRST_ENTRY + count_of(w) + 1))
}

// Entry i: 0 for anything, else a pointcut's number plus 1.
pub fn entry_at(fields: &[u8], i: usize) -> u16
    requires { i < count_size }
    ensures { result ≡ entry_in fields.now i }
{
    field_or_zero(fields, FIRST_ENTRY + i)
}

// The pointcut of the entry v.
pub fn cut_term(v: u16) -> TermNo
    ensures { result.0 ≡ cut_term v }
{
    term_with(usize::from(v.saturating_sub(1)))
}

pub fn binds_rest(fields: &[u8], w: u64) -> bool
    ensures { (C : Program) → fields.now ≡ match_fields C.image w → result ≡ binds_rest C w }
{
    field_or_zero(fields, FIRST_ENTRY + count_of(w)) != 0
}

// Entry i is a pointcut that is no atom.
pub fn stops_at(code: &[u64], fields: &[u8], i: usize) -> bool
    requires { (term_count ≤ length code.now) × (i < count_size) }
    ensures { (image : List ℕ) (w : ℕ) → i < count_of w → fields.now ≡ match_fields image w → result ≡ stops_at (record { code = code.now; image = image }) w i }
{
    let v = entry_at(fields, i);
    let class = class_of(word_of(code, cut_term(v)));
    v != 0 && INSTRUCTION <= class
}

// All entries were looked at: the close fits too.
pub fn matches(fields: &[u8], w: u64, k: Progress) -> bool
    ensures { (C : Program) → fields.now ≡ match_fields C.image w → result ≡ machine.matches C w (looked_of k) }
{
    k.fits && (binds_rest(fields, w) || !is_kept(k.rest))
}

// How many variables all entries bind, one each but those for anything, and a close that binds the rest.
pub fn variables(fields: &[u8], w: u64) -> usize
    ensures { ((C : Program) → fields.now ≡ match_fields C.image w → result ≡ machine.variables C w (count_of w) 0) × (result ≤ count_size) }
{
    let mut c = 0;
    for i in 0..count_of(w) {
        c += usize::from(entry_at(fields, i) != 0);
    }
    c + usize::from(binds_rest(fields, w))
}
