// An inner crate: records written into a lent output.
#![tactic(auto)]

ghost use Rattle.std.specs.Prelude.{◌≡◌, [], ◌∷◌, ◌+◌, ◌-◌, ◌*◌, ◌≤◌, ◌<◌, length};
ghost use Rattle.image.specs.Limits.{term_limit};
ghost use Rattle.base_bytes.specs.Bytes.{over};
ghost use Rattle.image_written.specs.Records.{little, field_limit};

use image::METHOD_LIMIT;
use read_records::numbers::TermNo;

// The most known fields of a record: those of the type of an object, two for each method.
pub const FIELD_LIMIT: usize = 2 * METHOD_LIMIT;

// The head of a record of so many fields, of a kind.
fn put_head(out: &mut [u8], at: usize, kind: u16, count: usize)
    requires { (count ≤ field_limit) × (at + 4 ≤ length out.old) }
    ensures { out.new ≡ over at (little ((4 + 2 * count) ∷ (kind ∷ []))) out.old }
{
    let size = 4 + 2 * (count as u16);
    report::numbers::put_header(out, at, size, kind);
}

// Numbers, one behind the other.
fn put_numbers(out: &mut [u8], at: usize, numbers: &[u16])
    requires { at + 2 * length numbers.now ≤ length out.old }
    ensures { out.new ≡ over at (little numbers.now) out.old }
{
    for (i, v) in numbers.iter().enumerate() {
        report::numbers::put16(out, at + 2 * i, *v);
    }
}

// A record of a kind, with these numbers for its fields, and the offset behind it. What stands before it and behind it stays.
pub fn put_record(out: &mut [u8], at: usize, kind: u16, numbers: &[u16]) -> usize
    requires { (length numbers.now ≤ field_limit) × (at + (4 + 2 * length numbers.now) ≤ length out.old) }
    ensures { (result ≡ at + (4 + 2 * length numbers.now)) × (out.new ≡ over at (little ((4 + 2 * length numbers.now) ∷ (kind ∷ numbers.now))) out.old) }
{
    put_head(out, at, kind, numbers.len());
    put_numbers(out, at + 4, numbers);
    at + (4 + 2 * numbers.len())
}

// How far an output is written: the next offset, and how many terms stand before it.
#[derive(Clone, Copy)]
pub struct Done {
    pub at: usize,
    pub terms: usize,
}

impl Done {
    // The last term that is written.
    pub fn last_term(self) -> TermNo
        requires { (0 < self.terms) × (self.terms ≤ term_limit) }
        ensures { result.0 ≡ self.terms - 1 }
    {
        TermNo((self.terms - 1) as u16)
    }

    // One term more: its record, of a kind, with these numbers for its fields.
    pub fn put_term(self, out: &mut [u8], kind: u16, numbers: &[u16]) -> Self
        requires { (length numbers.now ≤ field_limit) × (self.at + (4 + 2 * length numbers.now) ≤ length out.old) × (self.terms < term_limit) }
        ensures { (result.at ≡ self.at + (4 + 2 * length numbers.now)) × (result.terms ≡ self.terms + 1) × (out.new ≡ over self.at (little ((4 + 2 * length numbers.now) ∷ (kind ∷ numbers.now))) out.old) }
    {
        Self {
            at: put_record(out, self.at, kind, numbers),
            terms: self.terms + 1,
        }
    }
}
