// An inner crate: the refusals 2 to 8 (document 01, "Turned back at the gate"), record by record, front to back, and the
// tables of the records that are not refused.
#![tactic(auto)]

ghost use Rattle.std.specs.Prelude.{◌≡◌, ◌≤◌, ◌<◌, length, replicate};
ghost use Rattle.image.specs.Limits.{term_limit};
ghost use Rattle.read_records.specs.Counts.{Few};
ghost use Rattle.check_repeats.specs.Keys.{filter_length};
ghost use Rattle.check_ranges.specs.Terms.{TermFields};
ghost use Rattle.check_layout.specs.Tables.{Lent, Scanned, ScannedWith, Enterable, Enters, EntersTerm};

use check_ranges::faults::first_fault;
use check_ranges::terms::term_fault;
use check_repeats::keys::FILTER_LENGTH;
use image::{Refusal, Refused};
use read_records::numbers::{Counts, DomainNo, TermNo, TypeNo};
use read_records::reader::Walk;

pub mod tables;

// A term: 4 to 7, its marks, and its place in its table; the counts behind it.
fn enter_term(
    fields: &[u8],
    code: u32,
    at: usize,
    counts: Counts,
    terms: &mut [u16],
    marks: &mut [u8],
) -> Result<Counts, Refusal>
    requires { TermFields fields.now code counts × (length fields.now ≤ 65535) × (at < 65536) × Few counts × (term_limit ≤ length terms.old) × (term_limit ≤ length marks.old) }
    ensures { EntersTerm result fields.now code at counts terms.old marks.old terms.new marks.new }
{
    term_fault(fields, code, counts, marks)?;
    tables::put_term(at, counts.next::<TermNo>(), terms);
    Ok(counts.with_one::<TermNo>())
}

// One record of the image: 3 to 8, and its place in its table. It is lent the record's fields. A term's code is asked for first,
// since most records are terms: no such code is 0.
fn enter(
    image: &[u8],
    fields: &[u8],
    kinds: &[u32],
    at: usize,
    kind: u16,
    counts: Counts,
    doms: &mut [u16],
    types: &mut [u16],
    descriptors: &mut [u32],
    filter: &mut [u32],
    terms: &mut [u16],
    marks: &mut [u8],
) -> Result<Counts, Refusal>
    requires { Enterable image.now fields.now kinds.now at kind counts doms.old types.old descriptors.old filter.old terms.old marks.old }
    ensures { Enters result image.now fields.now kinds.now at kind counts doms.old types.old descriptors.old filter.old terms.old marks.old doms.new types.new descriptors.new filter.new terms.new marks.new }
{
    let code = read_records::table::code_of(kinds, kind);
    if read_records::table::is_term(code) {
        return enter_term(fields, code, at, counts, terms, marks);
    }
    if code == 0 {
        return Err(Refusal::UnknownKind);
    }
    first_fault(fields, code, counts)?;
    if read_records::table::section_of(code) == read_records::table::TYPES {
        let descriptor = check_fields::descriptor_of(fields, code, kind);
        tables::put_type(
            image,
            fields,
            at,
            descriptor,
            counts.next(),
            types,
            descriptors,
            filter,
        )?;
        return Ok(counts.with_one::<TypeNo>());
    }
    tables::put_domain(at, counts.next::<DomainNo>(), doms);
    Ok(counts.with_one::<DomainNo>())
}

// The scan with a filter of keys, which may hold anything at first: with zeros the fewest keys are compared.
// Its loop keeps the walk over the image, which hands each record's fields on to enter.
fn scan_with(
    image: &[u8],
    kinds: &[u32],
    doms: &mut [u16],
    types: &mut [u16],
    descriptors: &mut [u32],
    filter: &mut [u32],
    terms: &mut [u16],
    marks: &mut [u8],
) -> Result<Counts, Refused>
    requires { Lent image.now kinds.now doms.old types.old descriptors.old terms.old × (filter_length ≤ length filter.old) × (marks.old ≡ replicate term_limit 0) }
    ensures { ScannedWith result image.now doms.new types.new descriptors.new filter.new terms.new marks.new }
{
    let mut walk = Walk::new(image, 0);
    let mut counts = Counts::none();
    while let Some(head) = walk.next().map_err(|why| Refused {
        why,
        place: walk.at,
    })? {
        let fields = walk.fields(head.len);
        counts = enter(
            image,
            fields,
            kinds,
            walk.at,
            head.kind,
            counts,
            doms,
            types,
            descriptors,
            filter,
            terms,
            marks,
        )
        .map_err(|why| Refused {
            why,
            place: walk.at,
        })?;
        walk = walk.past(head.len);
    }
    Ok(counts)
}

// Refused, at a record's offset; or all records are in the tables, so many of each section.
pub fn scan_records(
    image: &[u8],
    kinds: &[u32],
    doms: &mut [u16],
    types: &mut [u16],
    descriptors: &mut [u32],
    terms: &mut [u16],
    marks: &mut [u8],
) -> Result<Counts, Refused>
    requires { Lent image.now kinds.now doms.old types.old descriptors.old terms.old × (marks.old ≡ replicate term_limit 0) }
    ensures { Scanned result image.now doms.new types.new descriptors.new terms.new marks.new }
{
    let mut filter = [0u32; FILTER_LENGTH];
    scan_with(
        image,
        kinds,
        doms,
        types,
        descriptors,
        &mut filter,
        terms,
        marks,
    )
}
