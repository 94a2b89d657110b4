// The tables of records: the offset of each, section by section, by its number; the descriptors of the types, and the filter of
// their keys.
ghost use Rattle.std.specs.Prelude.{◌≡◌, ◌<◌, length, set};
ghost use Rattle.image.specs.Limits.{type_limit};
ghost use Rattle.check_repeats.specs.NewTypes.{Placed};
ghost use Rattle.check_repeats.specs.Keys.{Filters};
ghost use Rattle.check_layout.specs.Tables.{PutType};

use image::Refusal;
use read_records::numbers::{DomainNo, Numbered, TermNo, TypeNo};

// The offset of a record, by its number: for the two functions below alone, each of which takes the table and the number of one
// section.
fn put<N: Numbered>(at: usize, n: N, offsets: &mut [u16])
    requires { (at < 65536) × (N.number n < length offsets.old) }
    ensures { offsets.new ≡ set offsets.old (N.number n) at }
{
    offsets[usize::from(n.number())] = at as u16;
}

pub fn put_domain(at: usize, d: DomainNo, doms: &mut [u16])
    requires { (at < 65536) × (d.0 < length doms.old) }
    ensures { doms.new ≡ set doms.old d.0 at }
{
    put(at, d, doms)
}

pub fn put_term(at: usize, n: TermNo, terms: &mut [u16])
    requires { (at < 65536) × (n.0 < length terms.old) }
    ensures { terms.new ≡ set terms.old n.0 at }
{
    put(at, n, terms)
}

// 8, and the offset, the descriptor and the key of the type t, which has these fields. A type whose key is none of the earlier
// ones' is new, and is compared with none of them.
pub fn put_type(
    image: &[u8],
    fields: &[u8],
    at: usize,
    descriptor: u32,
    t: TypeNo,
    types: &mut [u16],
    descriptors: &mut [u32],
    filter: &mut [u32],
) -> Result<(), Refusal>
    requires { (at < 65536) × (t.0 < type_limit) × (t.0 < length types.old) × (t.0 < length descriptors.old) × Filters image.now t.0 types.old descriptors.old filter.old × Placed image.now t.0 types.old }
    ensures { PutType result image.now fields.now at descriptor t.0 types.old descriptors.old filter.old types.new descriptors.new filter.new }
{
    let key = check_repeats::keys::key_of(fields, descriptor);
    if check_repeats::keys::has_key(filter, t, key) {
        if !check_repeats::new_types::is_new_type(
            image,
            fields,
            descriptor,
            t,
            types,
            descriptors,
        ) {
            return Err(Refusal::RepeatedType);
        }
    }
    let i = usize::from(t.0);
    types[i] = at as u16;
    descriptors[i] = descriptor;
    check_repeats::keys::put_key(filter, t, key);
    Ok(())
}
