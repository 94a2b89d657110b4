// An inner crate: what all advice takes of pieces at a mark, for each number of values that may be kept around it (document 02,
// cards 6 and 10), by one walk over the terms of an image.
#![tactic(auto)]

ghost use Rattle.std.specs.Prelude.{◌≡◌, true, max};
ghost use Rattle.image.specs.Layout.{records_of};
ghost use Rattle.read_terms.specs.Lent.{Lent, IsTerm};
ghost use Rattle.need_sums.specs.Rows.{Summed};
ghost use Rattle.need_walk.specs.Counted.{Placed};
ghost use Rattle.need_rows.specs.Pieces.{in_row, piece_at, of_advice};

use image::{TERM_LIMIT, TYPE_LIMIT};
use need_own::own::is_branch;
use need_own::rows::{TABLE, charge_rows, raise_rows};
use need_sums::positions::{Mode, Position};
use need_sums::shapes::shape_of;
use need_terms::{child_in, part_domain};
use read_records::kinds;
use read_records::numbers::TermNo;
use read_terms::terms::{child_count, term_fields, term_kind};

// The two branches of a term.
#[derive(Clone, Copy)]
pub struct Branches {
    pub first: TermNo,
    pub second: TermNo,
}

// Adds to each row what the dearer of two branches takes there. Both go on in their parent's place. One is added to the rows,
// the other to a copy of them, and the larger of both counts, row by row. The copy is the one table on the way to a term, and
// only a term with branches has it.
#[cycle(add_branches_add_pieces)]
fn add_branches(
    image: &[u8],
    terms: &[u16; TERM_LIMIT],
    descriptors: &[u32; TYPE_LIMIT],
    both: Branches,
    s: Position,
    rows: &mut [u32; TABLE],
)
    requires { Lent image.now terms.now descriptors.now × (IsTerm image.now both.first.0 × Placed (records_of image.now) s both.first.0) × (IsTerm image.now both.second.0 × Placed (records_of image.now) s both.second.0) × (of_advice s.mode ≡ true) }
    ensures { Summed (λ x. max (piece_at (in_row (records_of image.now) s both.first.0) x) (piece_at (in_row (records_of image.now) s both.second.0) x)) rows.old rows.new }
{
    let mut other = *rows;
    add_pieces(image, terms, descriptors, both.first, s, rows);
    add_pieces(image, terms, descriptors, both.second, s, &mut other);
    raise_rows(rows, &other);
}

// Adds to each row what a term and the terms below it take there. All adds up but branches, of which the dearer counts.
#[cycle(add_branches_add_pieces)]
pub fn add_pieces(
    image: &[u8],
    terms: &[u16; TERM_LIMIT],
    descriptors: &[u32; TYPE_LIMIT],
    n: TermNo,
    s: Position,
    rows: &mut [u32; TABLE],
)
    requires { Lent image.now terms.now descriptors.now × IsTerm image.now n.0 × Placed (records_of image.now) s n.0 × (of_advice s.mode ≡ true) }
    ensures { Summed (piece_at (in_row (records_of image.now) s n.0)) rows.old rows.new }
{
    if s.mode == Mode::Skip {
        return;
    }
    let kind = term_kind(image, terms, n);
    if kind <= kinds::VARIABLE {
        return;
    }
    let fields = term_fields(image, terms, n);
    let shape = shape_of(kind);
    let p = part_domain(kind, fields, descriptors);
    let k = child_count(kind, fields);
    for j in 0..k {
        let role = shape.role_at(j);
        if !is_branch(s, role) {
            let e = child_in(kind, fields, j);
            let q = s.child_position(role, p);
            add_pieces(image, terms, descriptors, e, q, rows);
        }
    }
    charge_rows(rows, shape.own, s);
    if is_branch(s, shape.second) {
        let both = Branches {
            first: child_in(kind, fields, 1),
            second: child_in(kind, fields, 2),
        };
        add_branches(image, terms, descriptors, both, s, rows);
    }
}
