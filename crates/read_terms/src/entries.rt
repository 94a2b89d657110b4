// The entries of a match (document 02, card 6): each is 0, or the number of a pointcut's term plus 1. They stand behind the type,
// the stack and the branches; the close stands behind them.
ghost use Rattle.std.specs.Prelude.{◌≡◌, ◌+◌, ◌-◌, ◌*◌, ◌<◌, length, get_or, ltb};
ghost use Rattle.image.specs.Kinds.{TermKind, an_entry};
ghost use Rattle.image.specs.Records.{as_child};
ghost use Rattle.read_records.specs.Heads.{field_in};
ghost use Rattle.read_terms.specs.Fields.{children_in, first_entry, entry_count, entry_terms};

use read_records::fields::field;
use read_records::numbers::{TermNo, entry_term};

// The field of the first entry.
pub const FIRST_ENTRY: usize = 4;

// How many entries the fields of a match hold.
pub fn entries_in(fields: &[u8]) -> usize
    ensures { result ≡ entry_count fields.now }
{
    (fields.len() / 2).saturating_sub(FIRST_ENTRY + 1)
}

// How many terms an entry names.
fn names_one(entry: u16) -> usize
    ensures { result ≡ length (as_child an_entry entry) }
{
    usize::from(entry != 0)
}

// How many terms the entries name.
fn entry_term_count(fields: &[u8]) -> usize
    ensures { result ≡ length (entry_terms fields.now) }
{
    let mut count: usize = 0;
    for i in 0..entries_in(fields) {
        count += names_one(field(fields, FIRST_ENTRY + i));
    }
    count
}

// Term j of those that the entries name.
fn entry_term_at(fields: &[u8], j: usize) -> TermNo
    requires { j < length (entry_terms fields.now) }
    ensures { result.0 ≡ get_or (entry_terms fields.now) j 0 }
{
    let mut left = j;
    for i in 0..entries_in(fields) {
        let entry = field(fields, FIRST_ENTRY + i);
        if entry != 0 && left == 0 {
            return entry_term(entry);
        }
        left -= names_one(entry);
    }
    TermNo(0)
}

// How many children a match has: its stack, two branches, and the terms that its entries name.
pub fn match_child_count(fields: &[u8]) -> usize
    ensures { result ≡ length (children_in fields.now TermKind.match) }
{
    3 + entry_term_count(fields)
}

// Child j of a match.
pub fn match_child(fields: &[u8], j: usize) -> TermNo
    requires { (7 < length fields.now) × (j < length (children_in fields.now TermKind.match)) }
    ensures { result.0 ≡ get_or (children_in fields.now TermKind.match) j 0 }
{
    if j < 3 {
        return TermNo(field(fields, 1 + j));
    }
    entry_term_at(fields, j - 3)
}

// The close of a match, which stands behind its entries: 1 binds the rest of the stack.
pub fn binds_rest(fields: &[u8]) -> bool
    requires { 2 * (first_entry + entry_count fields.now) + 1 < length fields.now }
    ensures { result ≡ ltb 0 (field_in fields.now (first_entry + entry_count fields.now)) }
{
    0 < field(fields, FIRST_ENTRY + entries_in(fields))
}
