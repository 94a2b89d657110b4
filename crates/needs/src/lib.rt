// What a flight will need (document 02, card 10): for an image that the check accepts and that is in the class, upper numbers
// of steps, of bindings, pieces and cells for each half, and of labels, advice, frames and log records; for any other image
// the one refusal. It reads the image alone, writes no lent memory and makes no run.
#![tactic(auto)]

ghost use Rattle.std.specs.Prelude.{◌≡◌, ◌≤◌, ◌<◌, length};
ghost use Rattle.image.specs.Limits.{image_limit};
ghost use Rattle.image.specs.Layout.{records_of};
ghost use Rattle.image.specs.Types.{root_of};
ghost use Rattle.read_terms.specs.Lent.{Lent};
ghost use Rattle.image_needs.specs.Forecasts.{forecast};
ghost use Rattle.need_walk.specs.Counted.{Shallow};
ghost use Rattle.needs.specs.Known.{program_position, cut_classed, cut_program};

use image::{DOMAIN_LIMIT, IMAGE_LIMIT, Refusal, Refused, TERM_LIMIT, TYPE_LIMIT};
use image_needs::{Forecast, Needs, Unforeseen};
use need_own::rows::TABLE;
use need_rows::add_pieces;
use need_sums::positions::{Mode, Position};
use need_terms::class::lowest_fault;
use need_walk::{Visit, mark_position, walk};
use read_records::numbers::{MAINLINE, TermNo};
use read_terms::terms::term_place;
use validator_core::examine::examine_image;

// Where the whole program stands.
fn program_position() -> Position
    ensures { result ≡ program_position }
{
    Position {
        mode: Mode::Program,
        dom: MAINLINE,
        depth: 0,
        kept: 0,
    }
}

// The numbers of a program: first what all its advice takes at a mark, with no value kept around it; then its pieces for each
// number of kept values; then the program itself.
fn program_needs(
    image: &[u8],
    terms: &[u16; TERM_LIMIT],
    descriptors: &[u32; TYPE_LIMIT],
    root: TermNo,
) -> Needs
    requires { Lent image.now terms.now descriptors.now × (0 < length (records_of image.now).terms) × (root.0 ≡ root_of (records_of image.now)) × Shallow (records_of image.now) }
    ensures { result ≡ cut_program (records_of image.now) }
{
    let mut rows = [0u32; TABLE];
    let each = walk(
        image,
        terms,
        descriptors,
        Visit {
            term: root,
            position: mark_position(),
        },
        Needs::default(),
        &rows,
    );
    add_pieces(image, terms, descriptors, root, mark_position(), &mut rows);
    walk(
        image,
        terms,
        descriptors,
        Visit {
            term: root,
            position: program_position(),
        },
        each,
        &rows,
    )
}

// Of an image that the check accepts, with so many terms.
fn forecast_accepted(
    image: &[u8],
    terms: &[u16; TERM_LIMIT],
    descriptors: &[u32; TYPE_LIMIT],
    count: usize,
) -> Forecast
    requires { Lent image.now terms.now descriptors.now × (0 < count) × (count ≡ length (records_of image.now).terms) × Shallow (records_of image.now) }
    ensures { result ≡ cut_classed (records_of image.now) }
{
    let root = TermNo((count - 1) as u16);
    let none = TermNo(count as u16);
    let fault = lowest_fault(image, terms, none, true, root);
    if fault.0 < none.0 {
        return Err(Unforeseen::OutsideClass(term_place(image, terms, fault)));
    }
    Ok(program_needs(image, terms, descriptors, root))
}

// Of an image that is not too long.
fn forecast_checked(image: &[u8]) -> Forecast
    requires { length image.now ≤ image_limit }
    ensures { result ≡ forecast image.now }
{
    let mut doms = [0u16; DOMAIN_LIMIT];
    let mut types = [0u16; TYPE_LIMIT];
    let mut descriptors = [0u32; TYPE_LIMIT];
    let mut terms = [0u16; TERM_LIMIT];
    let counts = examine_image(image, &mut doms, &mut types, &mut descriptors, &mut terms)?;
    forecast_accepted(image, &terms, &descriptors, counts.terms)
}

// What is said of an image before a launch.
pub fn forecast_image(image: &[u8]) -> Forecast
    ensures { result ≡ forecast image.now }
{
    if IMAGE_LIMIT < image.len() {
        let too_long = Refused {
            why: Refusal::ImageTooLong,
            place: 0,
        };
        return Err(Unforeseen::Refused(too_long));
    }
    forecast_checked(image)
}
