// Tables of pieces: what all advice takes of them at a mark, for each number of values that may be kept around it.
ghost use Rattle.std.specs.Prelude.{◌≡◌, ◌+◌, ◌-◌, ◌≤◌, ◌<◌, max, get_or};
ghost use Rattle.need_sums.specs.Sums.{cut};
ghost use Rattle.need_sums.specs.Walks.{place_limit};
ghost use Rattle.need_sums.specs.Rows.{row_count, table_length, at_mark, Changed, pieces_of, own_pieces, Summed};

use image::DEPTH_LIMIT;
use image_needs::Needs;
use need_sums::positions::{Mode, Position};
use need_sums::shapes::Own;
use read_records::numbers::MAINLINE;

// A row for each number of kept values, in each half: an image is at most so deep.
const ROWS: usize = DEPTH_LIMIT;

pub const TABLE: usize = 2 * ROWS;

// What all advice takes at a mark with so many values kept around it; w has all numbers but the pieces.
#[tactic(auto, unfolding(need_sums::specs::Rows::at_mark))]
pub fn at_mark(w: Needs, rows: &[u32; TABLE], kept: u32) -> Needs
    requires { kept < row_count }
    ensures { result ≡ at_mark w rows.now kept }
{
    let row = kept as usize;
    Needs {
        pieces: rows[row],
        other_pieces: rows[ROWS + row],
        ..w
    }
}

// The dearer of two tables, row by row, in the first.
pub fn raise_rows(rows: &mut [u32; TABLE], part: &[u32; TABLE])
    ensures { Changed (λ x y. max y (get_or part.now x 0)) 0 table_length rows.old rows.new }
{
    for (x, other) in part.iter().enumerate() {
        rows[x] = rows[x].max(*other);
    }
}

fn pieces_of(own: Own, kept: u32) -> u32
    ensures { result ≡ pieces_of own kept }
{
    match own {
        Own::Piece | Own::Advised => 1,
        Own::Stack => kept,
        _ => 0,
    }
}

// One half of a table, which begins at a place. In row i there are i more values kept.
fn charge_quota(rows: &mut [u32; TABLE], at: usize, own: Own, kept: u32)
    requires { (at ≤ row_count) × (kept ≤ place_limit) }
    ensures { Changed (λ x y. cut (y + pieces_of own (x - at + kept))) at (at + row_count) rows.old rows.new }
{
    for i in 0..ROWS {
        rows[at + i] = rows[at + i].saturating_add(pieces_of(own, i as u32 + kept));
    }
}

// What a term takes itself, in the half of its domain.
pub fn charge_rows(rows: &mut [u32; TABLE], own: Own, s: Position)
    requires { s.kept ≤ place_limit }
    ensures { Summed (own_pieces own s) rows.old rows.new }
{
    let takes_pieces = matches!(own, Own::Piece | Own::Advised | Own::Stack);
    if s.mode == Mode::Body && takes_pieces {
        let at = if s.dom.0 == MAINLINE.0 { 0 } else { ROWS };
        charge_quota(rows, at, own, s.kept);
    }
}
