// The validator over lent tables, refusals 2 to 16 (document 01, "Turned back at the gate"). The engine then uses
// the tables of an accepted image.
ghost use Rattle.std.specs.Prelude.{◌≡◌, ◌≤◌, length};
ghost use Rattle.image.specs.Limits.{image_limit, type_limit, term_limit};
ghost use Rattle.read_records.specs.Codes.{kind_codes};
ghost use Rattle.read_records.specs.Tables.{Tables, Counted};
ghost use Rattle.check_uses.specs.Marks.{all_marks};
ghost use Rattle.check_layout.specs.Tables.{Long};
ghost use Rattle.read_terms.specs.Lent.{TypeOffsets};
ghost use Rattle.validator_core.specs.Examined.{checked_records, Answered};

use image::{Refused, TERM_LIMIT, TYPE_LIMIT};
use read_records::numbers::Counts;
use verdict::Verdict;

// Refusals 9 to 16, of an image that is laid out.
fn check_laid_out(
    image: &[u8],
    kinds: &[u32],
    counts: Counts,
    doms: &[u16],
    types: &[u16; TYPE_LIMIT],
    descriptors: &[u32; TYPE_LIMIT],
    terms: &[u16; TERM_LIMIT],
    marks: &[u8],
) -> Verdict
    requires { (kinds.now ≡ kind_codes) × Tables image.now doms.now terms.now descriptors.now × Counted image.now counts × TypeOffsets image.now types.now × (marks.now ≡ all_marks image.now) }
    ensures { result ≡ checked_records image.now }
{
    check_shape::check_shape(image, kinds, counts, doms, terms, marks)?;
    check_typing::check_typing(image, counts, doms, types, terms, descriptors)
}

// Refusals 2 to 16, and the tables; of an accepted image, how many records each section has. The table of kinds is made here,
// where the scan reads it: lent from farther away it would be found by its address at each record.
pub fn examine_image(
    image: &[u8],
    doms: &mut [u16],
    types: &mut [u16; TYPE_LIMIT],
    descriptors: &mut [u32; TYPE_LIMIT],
    terms: &mut [u16; TERM_LIMIT],
) -> Result<Counts, Refused>
    requires { (length image.now ≤ image_limit) × Long doms.old types.old descriptors.old terms.old }
    ensures { Answered result image.now doms.new types.new descriptors.new terms.new × (length types.new ≡ type_limit) × (length descriptors.new ≡ type_limit) × (length terms.new ≡ term_limit) }
{
    let kinds = read_records::table::kind_codes();
    let mut marks = [0u8; TERM_LIMIT];
    let counts = check_layout::scan_records(
        image,
        &kinds,
        doms,
        types,
        descriptors,
        terms,
        &mut marks,
    )?;
    check_laid_out(
        image,
        &kinds,
        counts,
        doms,
        types,
        descriptors,
        terms,
        &marks,
    )?;
    Ok(counts)
}
