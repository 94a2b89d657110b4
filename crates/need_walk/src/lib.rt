// An inner crate: the walk over the terms of an image that works out the numbers of card 10 (document 02).
#![tactic(auto)]

ghost use Rattle.std.specs.Prelude.{◌≡◌};
ghost use Rattle.image.specs.Layout.{records_of};
ghost use Rattle.image.specs.Types.{root_of};
ghost use Rattle.read_terms.specs.Lent.{Lent, IsTerm};
ghost use Rattle.need_sums.specs.Sums.{cut_needs};
ghost use Rattle.need_walk.specs.Counted.{counted, term_at, Placed, Known, mark_position};

use image_needs::Needs;
use need_own::own::{added, chosen, own_needs};
use need_own::rows::{TABLE, at_mark};
use need_sums::positions::{Mode, Position};
use need_sums::shapes::shape_of;
use need_sums::sums::{add, dearer};
use need_terms::{branch_variables, child_in, part_domain};
use read_records::kinds;
use read_records::numbers::{MAINLINE, TermNo};
use read_terms::terms::{child_count, term_fields, term_kind};

// A term, and where it stands.
#[derive(Clone, Copy)]
pub struct Visit {
    pub term: TermNo,
    pub position: Position,
}

// Of all advice, at a mark that nothing encloses and around which no value is kept.
pub fn mark_position() -> Position
    ensures { result ≡ mark_position 0 }
{
    Position {
        mode: Mode::AllAdvice,
        dom: MAINLINE,
        depth: 0,
        kept: 0,
    }
}

// What a term and the terms below it take where they stand. A constant or a variable takes nothing. Each level goes to a lower
// number. What all advice takes at a mark that nothing encloses is known: its pieces by the rows of a table, one for each number
// of kept values, the rest of it as it is at every mark.
pub fn walk(
    image: &[u8],
    terms: &[u16],
    descriptors: &[u32],
    at: Visit,
    each: Needs,
    rows: &[u32; TABLE],
) -> Needs
    requires { Lent image.now terms.now descriptors.now × IsTerm image.now at.term.0 × Placed (records_of image.now) at.position at.term.0 × Known (records_of image.now) at.position each rows.now }
    ensures { result ≡ cut_needs (counted (term_at (records_of image.now) (root_of (records_of image.now))) at.position (term_at (records_of image.now) at.term.0)) }
{
    let n = at.term;
    let s = at.position;
    if s.mode == Mode::Skip {
        return Needs::default();
    }
    let kind = term_kind(image, terms, n);
    if kind <= kinds::VARIABLE {
        return Needs::default();
    }
    let fields = term_fields(image, terms, n);
    let shape = shape_of(kind);
    let p = part_domain(kind, fields, descriptors);
    let v = branch_variables(kind, fields);
    let k = child_count(kind, fields);
    let mut sum = own_needs(shape.own, s, p, at_mark(each, rows, s.kept));
    let mut choice = Needs::default();
    for j in 0..k {
        let role = shape.role_at(j);
        let below = Visit {
            term: child_in(kind, fields, j),
            position: s.child_position(role, p),
        };
        let x = walk(image, terms, descriptors, below, each, rows);
        sum = add(sum, added(s, role, x));
        choice = dearer(choice, chosen(s, role, v, x));
    }
    add(sum, choice)
}
