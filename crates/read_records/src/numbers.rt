// Domain numbers, type numbers and term numbers, which are never used for one another (document 01, "The image"), how many
// there are of each, what the validator's tables hold of each, and the parts of a type's descriptor.
ghost use Rattle.std.specs.Prelude.{ℕ, ◌≡◌, suc, ◌+◌, ◌<◌, ◌≤◌, length, get_or, ltb};
ghost use Rattle.image.specs.Limits.{term_limit};
ghost use Rattle.read_records.specs.declared.numbers.Counts.{Counts};
ghost use Rattle.read_records.specs.Counts.{no_records, with_domain, with_type, with_term, Few, few_domains, few_types, few_terms};
ghost use Rattle.read_records.specs.Descriptors.{descriptor_kind, descriptor_field0, descriptor_field1, descriptor_field2, descriptor_of};

#[derive(Clone, Copy)]
pub struct DomainNo(pub u16);

#[derive(Clone, Copy)]
pub struct TypeNo(pub u16);

#[derive(Clone, Copy)]
pub struct TermNo(pub u16);

// The mainline's domain (document 01, "Two runs compared").
pub const MAINLINE: DomainNo = DomainNo(0);

// How many records each section has. Those of a section are numbered from 0 on: so the count is also the number that the
// section's next record gets.
#[derive(Clone, Copy)]
pub struct Counts {
    pub domains: usize,
    pub types: usize,
    pub terms: usize,
}

impl Counts {
    pub fn none() -> Self
        ensures { result ≡ no_records }
    {
        Self {
            domains: 0,
            types: 0,
            terms: 0,
        }
    }

    // The domain, the type or the term of that number is there.
    pub fn has<N: Numbered>(self, n: N) -> bool
        ensures { result ≡ ltb (N.number n) (N.count self) }
    {
        usize::from(n.number()) < N::count(self)
    }

    // The number that the next domain, type or term gets.
    pub fn next<N: Numbered>(self) -> N
        requires { Few self }
        ensures { N.number result ≡ N.count self }
    {
        N::from_number(N::count(self) as u16)
    }

    // One domain, type or term more.
    pub fn with_one<N: Numbered>(self) -> Self
        requires { Few self }
        ensures { result ≡ N.with_one self }
    {
        N::with_one(self)
    }
}

// What the three numbers have in common: each is a number of 16 bits, and a section of its own is counted by it.
pub trait Numbered: Copy {
    ghost number: { Self → ℕ };

    // How many records the number's section has, and the counts with one more.
    ghost count: { Counts → ℕ };

    ghost with_one: { Counts → Counts };

    fn from_number(n: u16) -> Self
        ensures { number result ≡ n };

    fn number(self) -> u16
        ensures { result ≡ number self };

    fn count(counts: Counts) -> usize
        ensures { result ≡ count counts };

    fn with_one(counts: Counts) -> Counts
        requires { Few counts }
        ensures { result ≡ with_one counts };

    ghost few: { (counts : Counts) → Few counts → count counts ≤ term_limit };
}

impl Numbered for DomainNo {
    ghost number = { λ d. d.0 };

    ghost count = { λ n. n.domains };

    ghost with_one = { with_domain };

    ghost few = { few_domains };

    fn from_number(n: u16) -> Self {
        Self(n)
    }

    fn number(self) -> u16 {
        self.0
    }

    fn count(counts: Counts) -> usize {
        counts.domains
    }

    fn with_one(counts: Counts) -> Counts {
        Counts {
            domains: counts.domains + 1,
            ..counts
        }
    }
}

impl Numbered for TypeNo {
    ghost number = { λ t. t.0 };

    ghost count = { λ n. n.types };

    ghost with_one = { with_type };

    ghost few = { few_types };

    fn from_number(n: u16) -> Self {
        Self(n)
    }

    fn number(self) -> u16 {
        self.0
    }

    fn count(counts: Counts) -> usize {
        counts.types
    }

    fn with_one(counts: Counts) -> Counts {
        Counts {
            types: counts.types + 1,
            ..counts
        }
    }
}

impl Numbered for TermNo {
    ghost number = { λ n. n.0 };

    ghost count = { λ n. n.terms };

    ghost with_one = { with_term };

    ghost few = { few_terms };

    fn from_number(n: u16) -> Self {
        Self(n)
    }

    fn number(self) -> u16 {
        self.0
    }

    fn count(counts: Counts) -> usize {
        counts.terms
    }

    fn with_one(counts: Counts) -> Counts {
        Counts {
            terms: counts.terms + 1,
            ..counts
        }
    }
}

// The offset of the record of that number, by the table of its section's offsets: for the three functions below alone, each of
// which takes the table and the number of one section.
fn offset_of<N: Numbered>(offsets: &[u16], n: N) -> usize
    requires { N.number n < length offsets.now }
    ensures { result ≡ get_or offsets.now (N.number n) 0 }
{
    usize::from(offsets[usize::from(n.number())])
}

// The offset of a domain's record.
pub fn domain_offset(doms: &[u16], d: DomainNo) -> usize
    requires { d.0 < length doms.now }
    ensures { result ≡ get_or doms.now d.0 0 }
{
    offset_of(doms, d)
}

// The offset of a type's record.
pub fn type_offset(types: &[u16], t: TypeNo) -> usize
    requires { t.0 < length types.now }
    ensures { result ≡ get_or types.now t.0 0 }
{
    offset_of(types, t)
}

// The offset of a term's record.
pub fn term_offset(terms: &[u16], n: TermNo) -> usize
    requires { n.0 < length terms.now }
    ensures { result ≡ get_or terms.now n.0 0 }
{
    offset_of(terms, n)
}

// The descriptor of a type.
pub fn type_descriptor(descriptors: &[u32], t: TypeNo) -> u32
    requires { t.0 < length descriptors.now }
    ensures { result ≡ get_or descriptors.now t.0 0 }
{
    descriptors[usize::from(t.0)]
}

// The term that an entry of a match names (document 02, card 6): 0 stands for anything, any other number is a term's plus 1.
pub fn entry_term(entry: u16) -> TermNo
    requires { 0 < entry }
    ensures { entry ≡ suc result.0 }
{
    TermNo(entry - 1)
}

// A kind and three fields as one number, each a byte of it.
pub fn descriptor_with(kind: u16, a: u16, b: u16, c: u16) -> u32
    requires { (kind < 256) × (a < 256) × (b < 256) × (c < 256) }
    ensures { result ≡ descriptor_of kind a b c }
{
    u32::from_le_bytes([kind as u8, a as u8, b as u8, c as u8])
}

// The parts of a descriptor.
// Kept: (d) one function of the byte's place would have its contract choose among the four definitions by that place.
pub fn descriptor_kind(k: u32) -> u16
    ensures { result ≡ descriptor_kind k }
{
    u16::from(k.to_le_bytes()[0])
}

pub fn descriptor_field0(k: u32) -> u16
    ensures { result ≡ descriptor_field0 k }
{
    u16::from(k.to_le_bytes()[1])
}

pub fn descriptor_field1(k: u32) -> u16
    ensures { result ≡ descriptor_field1 k }
{
    u16::from(k.to_le_bytes()[2])
}

pub fn descriptor_field2(k: u32) -> u16
    ensures { result ≡ descriptor_field2 k }
{
    u16::from(k.to_le_bytes()[3])
}
