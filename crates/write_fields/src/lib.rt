// An inner crate: what the known fields of a record are, one by one, for a walk that writes the image anew (document 02,
// card 11). The code of the record's kind says it; so a kind that the table has needs nothing here.
#![tactic(auto)]

ghost use Rattle.std.specs.Prelude.{◌≡◌, true, false, ◌+◌, ◌≤◌, ◌<◌, MatchOption};
ghost use Rattle.read_records.specs.Codes.{kind_codes, code_at, first_of, last_of, Sized};
ghost use Rattle.write_fields.specs.Classes.{Known, known_count, slot_in, digit_at, class_in, is_child, child_no, as_field};

use read_records::numbers::{TermNo, entry_term};
use read_records::table::{
    CLASS_COUNT, CLASS_ENTRY, CLASS_TERM, field_classes, first_count, group_count, group_times,
    known_code, last_count,
};

// A class has three bits.
const CLASS_BITS: usize = 3;

// The code of a record's kind, and how many known fields it has.
#[derive(Clone, Copy)]
pub struct Fields {
    pub code: u32,
    pub count: usize,
}

impl Fields {
    // Of a record of a kind, whose fields these are.
    pub fn known(codes: &[u32], kind: u16, fields: &[u8]) -> Self
        requires { (codes.now ≡ kind_codes) × Known kind fields.now }
        ensures { (result.code ≡ code_at kind) × (result.count ≡ known_count kind fields.now) }
    {
        let code = known_code(codes, kind);
        let groups = group_times(code, fields.len()) * group_count(code);
        Self {
            code,
            count: first_count(code) + (groups + last_count(code)),
        }
    }

    // Which of the code's classes field i has: the first fields' stand first, then the group's, which are at most two, then the
    // last ones'.
    fn slot_of(self, i: usize) -> usize
        requires { Sized self.code × (first_of self.code + last_of self.code ≤ self.count) × (i < self.count) }
        ensures { result ≡ slot_in self.code self.count i }
    {
        let first = first_count(self.code);
        let past = self.count - last_count(self.code);
        if i < first {
            i
        } else if past <= i {
            first + group_count(self.code) + (i - past)
        } else if group_count(self.code) < 2 {
            first
        } else {
            first + (i - first) % 2
        }
    }

    // The class of field i.
    pub fn class_of(self, i: usize) -> u32
        requires { Sized self.code × (first_of self.code + last_of self.code ≤ self.count) × (i < self.count) × (slot_in self.code self.count i < 6) }
        ensures { result ≡ class_in self.code self.count i }
    {
        class_at(field_classes(self.code), self.slot_of(i))
    }
}

// The class at a place among classes, of which there are at most six.
fn class_at(classes: u32, slot: usize) -> u32
    requires { slot < 6 }
    ensures { result ≡ digit_at slot classes }
{
    (classes >> (CLASS_BITS * slot)) % CLASS_COUNT
}

// The child that a field of a class, of number v, names: a term's number does, and an entry that is not 0.
pub fn child_of(class: u32, v: u16) -> Option<TermNo>
    ensures { MatchOption result (is_child class v ≡ false) (λ n. (is_child class v ≡ true) × (n.0 ≡ child_no class v)) }
{
    match class {
        CLASS_TERM => Some(TermNo(v)),
        CLASS_ENTRY if 0 < v => Some(entry_term(v)),
        _ => None,
    }
}

// The number of a field that names child n.
pub fn as_field(class: u32, n: TermNo) -> u16
    requires { n.0 < 65535 }
    ensures { result ≡ as_field class n.0 }
{
    if class == CLASS_ENTRY { n.0 + 1 } else { n.0 }
}
