// An inner crate: an image that is laid out, written anew (document 02, card 11): its domains, the types of its terms in their
// order, its terms by a walk from the root.
#![tactic(auto)]

ghost use Rattle.std.specs.Prelude.{◌≡◌, ◌-◌, ◌≤◌, ◌<◌, length};
ghost use Rattle.image.specs.Limits.{term_limit};
ghost use Rattle.image.specs.Layout.{records_of};
ghost use Rattle.verdict.specs.Domains.{masks};
ghost use Rattle.base_bytes.specs.Bytes.{over};
ghost use Rattle.read_records.specs.Codes.{kind_codes};
ghost use Rattle.read_records.specs.Tables.{Counted};
ghost use Rattle.read_terms.specs.Lent.{Domains, Terms, TypeOffsets};
ghost use Rattle.image_written.specs.Written.{fixed};
ghost use Rattle.write_sections.specs.Sections.{domain_bytes};
ghost use Rattle.write_image.specs.Fits.{Fits};

use image::DOMAIN_LIMIT;
use read_records::numbers::{Counts, TermNo};
use read_terms::domains::set_masks;
use write_program::write_term;
use write_records::Done;
use write_sections::{write_domains, write_types};
use write_terms::enter_term;
use write_types::TypeTable;

// The last term is the root.
fn root_of(counts: Counts) -> TermNo
    requires { (0 < counts.terms) × (counts.terms ≤ term_limit) }
    ensures { result.0 ≡ counts.terms - 1 }
{
    TermNo((counts.terms - 1) as u16)
}

// The domains, at the front of the output, and the offset behind them.
fn keep_domains(image: &[u8], doms: &[u16], count: usize, out: &mut [u8]) -> usize
    requires { Domains image.now doms.now × (count ≡ length (records_of image.now).domains) × (length (domain_bytes (masks (records_of image.now))) ≤ length out.old) }
    ensures { (result ≡ length (domain_bytes (masks (records_of image.now)))) × (out.new ≡ over 0 (domain_bytes (masks (records_of image.now))) out.old) }
{
    let mut masks = [0u16; DOMAIN_LIMIT];
    set_masks(image, doms, count, &mut masks);
    write_domains(&masks[..count], out)
}

// The whole, over a table of its own for the order of the types.
pub fn write_whole(
    image: &[u8],
    codes: &[u32],
    counts: Counts,
    doms: &[u16],
    types: &[u16],
    terms: &[u16],
    out: &mut [u8],
) -> usize
    requires { (codes.now ≡ kind_codes) × Domains image.now doms.now × TypeOffsets image.now types.now × Terms image.now terms.now × Counted image.now counts × Fits image.now (length out.old) }
    ensures { (result ≡ length (fixed image.now)) × (out.new ≡ over 0 (fixed image.now) out.old) }
{
    let root = root_of(counts);
    let mut table = TypeTable::empty();
    table.count = enter_term(
        image,
        codes,
        types,
        terms,
        &mut table.places,
        &mut table.order,
        table.count,
        root,
    );
    let behind_domains = keep_domains(image, doms, counts.domains, out);
    let behind_types = write_types(image, codes, types, &table, out, behind_domains);
    let start = Done {
        at: behind_types,
        terms: 0,
    };
    write_term(image, codes, terms, &table.places, out, start, root).at
}
