// The table of kinds in numbers, one code for each kind: what a record of the kind has. It is built once, by kind_codes, and
// lent from there on.
ghost use Rattle.std.specs.Prelude.{◌≡◌, ◌*◌, ◌≤◌, ◌<◌, eqb};
ghost use Rattle.read_records.specs.Codes.{code_count, kind_codes, code_at, size_of, first_children_of, group_of, count_of, last_of, least_of, classes_of, section_of, first_of, Sized, times_in, children_in, entries_in};

// Kept: (d) sections and classes are digits of the codes below, which are sums of constants: an enum's variant can stand in no
// such sum.
//
// The sections.
pub const DOMAINS: u32 = 1;

pub const TYPES: u32 = 2;

pub const TERMS: u32 = 3;

// The classes of fields. A field of the class CLASS_FREE may be any number.
pub const CLASS_TYPE: u32 = 0;

pub const CLASS_DOMAIN: u32 = 1;

pub const CLASS_OPERATION: u32 = 2;

pub const CLASS_TRUTH: u32 = 3;

pub const CLASS_FREE: u32 = 4;

pub const CLASS_TERM: u32 = 5;

pub const CLASS_ENTRY: u32 = 6;

// A class has three bits: there are fewer than these.
pub const CLASS_COUNT: u32 = 8;

// The places of a code's parts, from its lowest bits on: the least length of a record; how many children are among the first
// fields; how many fields the group has; how many fields stand before the children; how many stand last; how often the group
// stands, at least; the classes of the fields; and the section.
const CHILDREN: u32 = 16;

const GROUP: u32 = 64;

const LEAD: u32 = 256;

const LAST: u32 = 1024;

const LEAST: u32 = 2048;

const CLASSES: u32 = 4096;

const SECTION: u32 = 1073741824;

pub const SECOND: u32 = CLASS_COUNT;

pub const THIRD: u32 = SECOND * CLASS_COUNT;

pub const FOURTH: u32 = THIRD * CLASS_COUNT;

pub const FIFTH: u32 = FOURTH * CLASS_COUNT;

pub const SIXTH: u32 = FIFTH * CLASS_COUNT;

// The codes, by what such a record has. A domain has a mask.
pub const MASK: u32 = 6 + SECTION * DOMAINS + LEAD + CLASSES * CLASS_FREE;

// The types of the unit, of truths and of numbers; of pairs; of functions; of references, labels and pointcuts; of advice.
pub const NO_FIELDS: u32 = 4 + SECTION * TYPES;

pub const TWO_TYPES: u32 = 8 + SECTION * TYPES + LEAD * 2;

pub const TYPE_DOMAIN_AND_TYPE: u32 = 10
    + SECTION * TYPES
    + LEAD * 3
    + CLASSES * SECOND * CLASS_DOMAIN;

pub const TYPE_AND_DOMAIN: u32 = 8 + SECTION * TYPES + LEAD * 2 + CLASSES * SECOND * CLASS_DOMAIN;

pub const DOMAIN: u32 = 6 + SECTION * TYPES + LEAD + CLASSES * CLASS_DOMAIN;

// The terms, each of which has its type first.
pub const TYPE: u32 = 6 + SECTION * TERMS + LEAD;

pub const TYPE_AND_TRUTH: u32 = 8 + SECTION * TERMS + LEAD * 2 + CLASSES * SECOND * CLASS_TRUTH;

pub const TYPE_AND_FREE: u32 = 8 + SECTION * TERMS + LEAD * 2 + CLASSES * SECOND * CLASS_FREE;

pub const TYPE_AND_TWO_FREE: u32 = 10
    + SECTION * TERMS
    + LEAD * 3
    + CLASSES * (SECOND * CLASS_FREE + THIRD * CLASS_FREE);

pub const TYPE_AND_CHILD: u32 = 8
    + SECTION * TERMS
    + LEAD
    + CHILDREN
    + CLASSES * SECOND * CLASS_TERM;

pub const TYPE_AND_TWO_CHILDREN: u32 = 10
    + SECTION * TERMS
    + LEAD
    + CHILDREN * 2
    + CLASSES * (SECOND * CLASS_TERM + THIRD * CLASS_TERM);

pub const TYPE_AND_THREE_CHILDREN: u32 = 12
    + SECTION * TERMS
    + LEAD
    + CHILDREN * 3
    + CLASSES * (SECOND * CLASS_TERM + THIRD * CLASS_TERM + FOURTH * CLASS_TERM);

pub const TYPE_OPERATION_AND_TWO_CHILDREN: u32 = 12
    + SECTION * TERMS
    + LEAD * 2
    + CHILDREN * 2
    + CLASSES * (SECOND * CLASS_OPERATION + THIRD * CLASS_TERM + FOURTH * CLASS_TERM);

pub const TYPE_DOMAIN_AND_CHILD: u32 = 10
    + SECTION * TERMS
    + LEAD * 2
    + CHILDREN
    + CLASSES * (SECOND * CLASS_DOMAIN + THIRD * CLASS_TERM);

// A type and up to eight children: a pointcut.
pub const TYPE_AND_CHILDREN: u32 = 6
    + SECTION * TERMS
    + LEAD
    + CLASSES * SECOND * CLASS_TERM
    + GROUP;

// Card 3: the type of objects, a domain and a type for each of one to eight methods; objects, a type and one to eight bodies;
// calls, a type, a child and a method's number.
pub const METHODS: u32 = 8
    + SECTION * TYPES
    + CLASSES * CLASS_DOMAIN
    + CLASSES * SECOND * CLASS_TYPE
    + GROUP * 2
    + LEAST;

pub const TYPE_AND_BODIES: u32 = 8
    + SECTION * TERMS
    + LEAD
    + CLASSES * SECOND * CLASS_TERM
    + GROUP
    + LEAST;

pub const TYPE_CHILD_AND_FREE: u32 = 10
    + SECTION * TERMS
    + LEAD
    + CHILDREN
    + LAST
    + CLASSES * (SECOND * CLASS_TERM + THIRD * CLASS_FREE);

// Card 6: a match, a type, the stack, two branches, up to eight entries, and the close. The type of stacks is a NO_FIELDS, the
// current stack a TYPE, a keep a TYPE_AND_THREE_CHILDREN.
pub const TYPE_THREE_CHILDREN_ENTRIES_AND_TRUTH: u32 = 14
    + SECTION * TERMS
    + LEAD
    + CHILDREN * 3
    + GROUP
    + LAST
    + CLASSES * (SECOND * CLASS_TERM + THIRD * CLASS_TERM + FOURTH * CLASS_TERM)
    + CLASSES * (FIFTH * CLASS_ENTRY + SIXTH * CLASS_TRUTH);

// Card 7: a takedown, a type and a domain.
pub const TERM_TYPE_AND_DOMAIN: u32 = 8
    + SECTION * TERMS
    + LEAD * 2
    + CLASSES * SECOND * CLASS_DOMAIN;

// How many numbers the table has a place for: up to the last kind's.
const KIND_COUNT: u16 = 61;

const KINDS: [u32; 61] = [
    0,
    MASK,
    0,
    0,
    0,
    0,
    0,
    0,
    0,
    0,
    0,
    0,
    0,
    0,
    0,
    0,
    NO_FIELDS,
    NO_FIELDS,
    NO_FIELDS,
    TWO_TYPES,
    TYPE_DOMAIN_AND_TYPE,
    TYPE_AND_DOMAIN,
    TYPE_AND_DOMAIN,
    TYPE_AND_DOMAIN,
    DOMAIN,
    METHODS,
    NO_FIELDS,
    0,
    0,
    0,
    0,
    0,
    TYPE,
    TYPE_AND_TRUTH,
    TYPE_AND_TWO_FREE,
    TYPE_AND_FREE,
    TYPE_AND_TWO_CHILDREN,
    TYPE_AND_CHILD,
    TYPE_AND_THREE_CHILDREN,
    TYPE_AND_TWO_CHILDREN,
    TYPE_AND_TWO_CHILDREN,
    TYPE_AND_CHILD,
    TYPE_AND_TWO_CHILDREN,
    TYPE_OPERATION_AND_TWO_CHILDREN,
    TYPE,
    TYPE_AND_TWO_CHILDREN,
    TYPE_AND_CHILDREN,
    TYPE_AND_TWO_CHILDREN,
    TYPE_AND_CHILD,
    TYPE_AND_CHILD,
    TYPE_AND_CHILD,
    TYPE_AND_TWO_CHILDREN,
    TYPE_DOMAIN_AND_CHILD,
    TYPE,
    TYPE_AND_BODIES,
    TYPE_CHILD_AND_FREE,
    TYPE,
    TYPE_AND_THREE_CHILDREN,
    TYPE_THREE_CHILDREN_ENTRIES_AND_TRUTH,
    TERM_TYPE_AND_DOMAIN,
    TYPE_AND_CHILD,
];

pub fn kind_codes() -> [u32; 61]
    ensures { result ≡ kind_codes }
{
    KINDS
}

// The code of a kind's number, 0 where it is no kind's.
pub fn code_of(kinds: &[u32], kind: u16) -> u32
    requires { kinds.now ≡ kind_codes }
    ensures { result ≡ code_at kind }
{
    if kind < KIND_COUNT {
        kinds[kind as usize]
    } else {
        0
    }
}

// The code of a number that is in the table.
pub fn known_code(kinds: &[u32], kind: u16) -> u32
    requires { (kinds.now ≡ kind_codes) × (kind < code_count) }
    ensures { result ≡ code_at kind }
{
    kinds[kind as usize]
}

// The least length of a record: its group stands the fewest times that it may; of a kind without a group, the length of a record.
pub fn least_length(code: u32) -> usize
    ensures { result ≡ size_of code }
{
    (code % CHILDREN) as usize
}

// Kept: (d) the parts of a code, from here to the last one: a function of the part's place and width as constants would have each
// caller write these two numbers where a name stands.
//
// How many children are among the first fields.
pub fn first_children(code: u32) -> usize
    ensures { result ≡ first_children_of code }
{
    (code / CHILDREN % 4) as usize
}

// How many fields the group has, which stands behind the first fields again and again.
pub fn group_count(code: u32) -> usize
    ensures { result ≡ group_of code }
{
    (code / GROUP % 4) as usize
}

// How many fields stand before the children.
pub fn field_count(code: u32) -> usize
    ensures { result ≡ count_of code }
{
    (code / LEAD % 4) as usize
}

// How many fields stand last.
pub fn last_count(code: u32) -> usize
    ensures { result ≡ last_of code }
{
    (code / LAST % 2) as usize
}

// How often the group stands, at least.
pub fn least_times(code: u32) -> usize
    ensures { result ≡ least_of code }
{
    (code / LEAST % 2) as usize
}

// What the first fields, the group's and the last ones are, three bits each, the first field's lowest.
pub fn field_classes(code: u32) -> u32
    ensures { result ≡ classes_of code }
{
    code / CLASSES % 262144
}

pub fn section_of(code: u32) -> u32
    ensures { result ≡ section_of code }
{
    code / SECTION
}

// The section is that of the terms.
pub fn is_term(code: u32) -> bool
    ensures { result ≡ eqb (section_of code) 3 }
{
    SECTION * TERMS <= code
}

// How many fields stand first.
pub fn first_count(code: u32) -> usize
    requires { Sized code }
    ensures { result ≡ first_of code }
{
    let fields = (least_length(code) - 4) / 2;
    fields - (least_times(code) * group_count(code) + last_count(code))
}

// How often the group stands in a record whose fields take so many bytes.
pub fn group_times(code: u32, bytes: usize) -> usize
    requires { Sized code }
    ensures { result ≡ times_in code bytes }
{
    let group = group_count(code);
    if group == 0 {
        return 0;
    }
    let others = first_count(code) + last_count(code);
    let all = bytes / 2;
    if all < others {
        return 0;
    }
    (all - others) / group
}

// How many children stand side by side in a record whose fields take so many bytes: as many as its kind has; where there is
// a group of one child and no child before it, as many as the length leaves behind the other fields. The children among the
// first fields stand in the code right below the group's fields, and both are read at once.
pub fn child_count(code: u32, bytes: usize) -> usize
    requires { 2 * count_of code ≤ bytes }
    ensures { result ≡ children_in code bytes }
{
    let told = (code / CHILDREN % 16) as usize;
    if told < 4 {
        return told;
    }
    if told % 4 != 0 {
        return told % 4;
    }
    bytes / 2 - field_count(code)
}

// How many entries stand in a record whose fields take so many bytes (document 02, card 6): a group behind children is one of
// entries, as many as the length leaves between the other fields.
pub fn entry_count(code: u32, bytes: usize) -> usize
    ensures { result ≡ entries_in code bytes }
{
    let told = (code / CHILDREN % 16) as usize;
    if told < 4 {
        return 0;
    }
    if told % 4 == 0 {
        return 0;
    }
    let others = field_count(code) + told % 4 + last_count(code);
    let all = bytes / 2;
    if all < others {
        return 0;
    }
    all - others
}
